//! Sums over books.

ghost use Rattle.std.specs.Prelude.{◌≡◌};
ghost use Rattle.books_model.specs.Laws.{all_cash};
ghost use Rattle.books_model.specs.Ranges.{AreInRange};
ghost use Rattle.input_maker.specs.Days.{all_quantities};

use books_model::Books;

/// The cash of all accounts.
pub fn cash_of_all(books: &Books) -> u128
    ensures { result ≡ all_cash books.now }
{
    books.ranges();
    summed_cash(books)
}

/// What all accounts hold of all instruments together.
pub fn quantity_of_all(books: &Books) -> u64
    ensures { result ≡ all_quantities books.now }
{
    books.ranges();
    summed_quantity(books)
}

// The sum over the accounts, in the order of their numbers.
fn summed_cash(books: &Books) -> u128
    requires { AreInRange books.now }
    ensures { result ≡ all_cash books.now }
{
    let mut last = 0;
    let mut sum = 0;
    while let Some((account, cash)) = books.account_after(last) {
        sum += u128::from(cash);
        last = account;
    }
    sum
}

// The sum over the positions, in the order of their accounts and instruments.
fn summed_quantity(books: &Books) -> u64
    requires { AreInRange books.now }
    ensures { result ≡ all_quantities books.now }
{
    let mut last = (0, 0);
    let mut sum = 0;
    while let Some((account, instrument, quantity)) = books.position_after(last.0, last.1) {
        sum += quantity;
        last = (account, instrument);
    }
    sum
}
