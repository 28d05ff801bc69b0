//! Numbers in a text, as they are written.

ghost use Rattle.std.specs.Prelude.{◌≡◌, ◌+◌, ◌/◌, ◌%◌, ◌<◌, [], ◌∷◌, ◌++◌, OnOk};
ghost use Rattle.std.specs.String.{string_bytes};
ghost use Rattle.script_reader.specs.declared.text.words.TheConstants.{SPACE};
ghost use Rattle.script_reader.specs.Text.{number};

use std::alloc::AllocError;

#[inline(always)]
fn push_digit(text: &mut String, digit: u64) -> Result<(), AllocError>
    requires { digit < 10 }
    ensures { OnOk result (string_bytes text.new ≡ string_bytes text.old ++ (48 + digit) ∷ []) }
{
    text.push(char::from(b'0' + digit as u8))
}

#[inline(always)]
fn push_pair(text: &mut String, pair: u64) -> Result<(), AllocError>
    requires { pair < 100 }
    ensures { OnOk result
        (string_bytes text.new
        ≡ string_bytes text.old ++ (48 + pair / 10) ∷ (48 + pair % 10) ∷ []) }
{
    push_digit(text, pair / 10)?;
    push_digit(text, pair % 10)
}

#[inline(always)]
fn push_short(text: &mut String, value: u64) -> Result<(), AllocError>
    requires { value < 100 }
    ensures { OnOk result (string_bytes text.new ≡ string_bytes text.old ++ number value) }
{
    if value < 10 {
        push_digit(text, value)
    } else {
        push_pair(text, value)
    }
}

/// Appends the digits of a number, without zeros in front.
pub fn push_number(text: &mut String, value: u64) -> Result<(), AllocError>
    ensures { OnOk result (string_bytes text.new ≡ string_bytes text.old ++ number value) }
{
    if value < 100 {
        return push_short(text, value);
    }
    // The last two digits stand behind those of a hundredth of it.
    let most = value / 100;
    if most < 100 {
        push_short(text, most)?;
    } else {
        push_number(text, most / 100)?;
        push_pair(text, most % 100)?;
    }
    push_pair(text, value % 100)
}

// Appends the digits of a number that may be above 64 bits, likewise.
fn push_wide(text: &mut String, value: u128) -> Result<(), AllocError>
    ensures { OnOk result (string_bytes text.new ≡ string_bytes text.old ++ number value) }
{
    if value <= u64::MAX as u128 {
        return push_number(text, value as u64);
    }
    push_wide(text, value / 100)?;
    push_pair(text, (value % 100) as u64)
}

/// Appends a space and a number that may be above 64 bits.
pub fn push_next_wide(text: &mut String, value: u128) -> Result<(), AllocError>
    ensures { OnOk result (string_bytes text.new ≡ string_bytes text.old ++ SPACE ∷ number value) }
{
    if value <= u64::MAX as u128 {
        return push_next(text, value as u64);
    }
    text.push(' ')?;
    push_wide(text, value)
}

/// Appends a space and a number.
pub fn push_next(text: &mut String, value: u64) -> Result<(), AllocError>
    ensures { OnOk result (string_bytes text.new ≡ string_bytes text.old ++ SPACE ∷ number value) }
{
    text.push(' ')?;
    if value < 100 {
        return push_short(text, value);
    }
    push_number(text, value)
}

/// Appends a size of a header behind its name, each with a space in front.
pub fn write_size(text: &mut String, name: &str, size: u32) -> Result<(), AllocError>
    ensures { OnOk result
        (string_bytes text.new
        ≡ string_bytes text.old ++ SPACE ∷ (name.now ++ SPACE ∷ number size)) }
{
    text.push(' ')?;
    text.push_str(name)?;
    push_next(text, u64::from(size))
}
