//! Arrays of cells.

ghost use Rattle.std.specs.Prelude.{◌≡◌, ◌≤◌, take};
ghost use Rattle.txn_cells.specs.Cells.{IsArray};

use crate::coded::Coded;
use crate::limits::MOST_WORDS_OF_A_CELL;
use history_model::Shape;
use std::alloc::AllocError;
use std::marker::PhantomData;
use txn_words::{Stop, Words};

/// So many cells behind one another, from a word on.
pub struct CellArray<T: Coded> {
    /// The first word of the first cell.
    pub at: u64,
    /// How many cells there are.
    pub len: u32,
    pub kind: PhantomData<T>,
    ghost sizes: { IsArray T.WORDS at len },
}

/// Words of which the last are the cells of such an array, each of which spells a value.
pub struct CellsShape<T: Coded> {
    /// The first word of the first cell.
    pub at: u64,
    /// How many cells there are.
    pub len: u32,
    pub kind: PhantomData<T>,
    ghost sizes: { IsArray T.WORDS at len },
}

impl<T: Coded> Clone for CellsShape<T> {
    fn clone(&self) -> Result<Self, AllocError> {
        Ok(*self)
    }
}

impl<T: Coded> Copy for CellsShape<T> {}

impl<T: Coded> Clone for CellArray<T> {
    fn clone(&self) -> Result<Self, AllocError> {
        Ok(*self)
    }
}

impl<T: Coded> Copy for CellArray<T> {}

impl<T: Coded> Shape for CellsShape<T> {
    ghost use Rattle.std.specs.Prelude.{◌+◌, ◌*◌};
    ghost use Rattle.txn_cells.specs.Cells.{AreCells};

    ghost word_count = { λ shape. shape.at + shape.len * T.WORDS };

    ghost good = { λ shape. AreCells T.Coded shape.at shape.len };
}

impl<T: Coded> CellsShape<T> {
    /// The shape of `len` cells from word `at` on. A cell takes 1 to 8 words, and all of them end within 1,048,576.
    pub fn new(at: u64, len: u32) -> CellsShape<T>
        requires sizes { IsArray T.WORDS at len }
        ensures at { result.at ≡ at }
        ensures len { result.len ≡ len }
    {
        CellsShape {
            at,
            len,
            kind: PhantomData,
        }
    }
}

impl<T: Coded> CellArray<T> {
    ghost use Rattle.std.specs.Prelude.{[], ◌∷◌, ◌<◌, ◌≤◌, ◌+◌, ◌*◌, ◌⊎◌, List, Some, length, slice_get, IfOk, OnOk};
    ghost use Rattle.txn_words.specs.Calls.{IsReady, GoesOn, WritesOnly, ReadsOnly, InEachState, LeadsTo};
    ghost use Rattle.txn_words.specs.Looks.{Looks};
    ghost use Rattle.txn_cells.specs.declared.typed.TypedEvent.TheVariants.{Get, Set};
    ghost use Rattle.txn_cells.specs.Cells.{AreCellValues, AreCells, IsOfCell, cell_words};
    ghost use Rattle.txn_cells.specs.Typed.{DoesTyped};
    ghost use Rattle.txn_cells.specs.Inner.Puts.{PutsWords};

    /// The array of `len` cells from word `at` on. A cell takes 1 to 8 words, and all of them end within 1,048,576.
    pub fn new(at: u64, len: u32) -> CellArray<T>
        requires sizes { IsArray T.WORDS at len }
        ensures at { result.at ≡ at }
        ensures len { result.len ≡ len }
    {
        CellArray {
            at,
            len,
            kind: PhantomData,
        }
    }

    /// The value of the cell at place `i`, counted from 0.
    pub fn get<W: Words>(&self, w: &mut W, i: u32) -> Result<T, Stop>
        requires ready { IsReady W.Words w.old }
        requires place { i < self.now.len }
        requires cells { InEachState W.Words W.Shape.Shape w.old
            (AreCells T.Coded self.now.at self.now.len) }

        // In every state that fits, it is the value that the cell has.
        ensures typed { IfOk result (λ x. LeadsTo W.Words W.Shape.Shape w.old w.new
            (DoesTyped T.Coded self.now.at self.now.len (Get i x ∷ []))) }

        ensures cells { OnOk result
            (InEachState W.Words W.Shape.Shape w.new (AreCells T.Coded self.now.at self.now.len)) }
        ensures frame { OnOk result (WritesOnly W.Words w.old w.new (λ _. ⊥)) }
        ensures reads { OnOk result
            (ReadsOnly W.Words w.old w.new (IsOfCell T.WORDS self.now.at i)) }
        ensures goes_on { GoesOn W.Words w.old w.new result }
    {
        let words = self.read_cell(w, i)?;
        match T::of(&words[..T::WORDS as usize]) {
            Some(x) => Ok(x),
            None => unreachable!(),
        }
    }

    /// Puts a value into the cell at place `i`.
    pub fn set<W: Words>(&self, w: &mut W, i: u32, value: &T) -> Result<(), Stop>
        requires ready { IsReady W.Words w.old }
        requires place { i < self.now.len }
        requires cells { InEachState W.Words W.Shape.Shape w.old
            (AreCells T.Coded self.now.at self.now.len) }

        // In every state that fits, the cell has this value, and the others have theirs.
        ensures typed { OnOk result (LeadsTo W.Words W.Shape.Shape w.old w.new
            (DoesTyped T.Coded self.now.at self.now.len (Set i value.now ∷ []))) }

        ensures cells { OnOk result
            (InEachState W.Words W.Shape.Shape w.new (AreCells T.Coded self.now.at self.now.len)) }
        ensures frame { OnOk result
            (WritesOnly W.Words w.old w.new (IsOfCell T.WORDS self.now.at i)) }
        ensures reads { OnOk result
            (ReadsOnly W.Words w.old w.new (IsOfCell T.WORDS self.now.at i)) }
        ensures goes_on { GoesOn W.Words w.old w.new result }
    {
        value.tell();
        let words = spelled(value);
        self.write_cell(w, i, &words[..T::WORDS as usize])
    }

    /// Swaps the values of two cells, which may be the same.
    pub fn swap<W: Words>(&self, w: &mut W, i: u32, j: u32) -> Result<(), Stop>
        requires ready { IsReady W.Words w.old }
        requires places { (i < self.now.len) × (j < self.now.len) }
        requires cells { InEachState W.Words W.Shape.Shape w.old
            (AreCells T.Coded self.now.at self.now.len) }

        // There are two values, those of the cells in every state that fits, which are put in crosswise.
        ensures typed { OnOk result ((x : _) × (y : _) × LeadsTo W.Words W.Shape.Shape w.old w.new
            (DoesTyped T.Coded self.now.at self.now.len
            (Get i x ∷ Get j y ∷ Set i y ∷ Set j x ∷ []))) }

        ensures cells { OnOk result
            (InEachState W.Words W.Shape.Shape w.new (AreCells T.Coded self.now.at self.now.len)) }
        ensures frame { OnOk result (WritesOnly W.Words w.old w.new
            (λ a. IsOfCell T.WORDS self.now.at i a ⊎ IsOfCell T.WORDS self.now.at j a)) }
        ensures reads { OnOk result (ReadsOnly W.Words w.old w.new
            (λ a. IsOfCell T.WORDS self.now.at i a ⊎ IsOfCell T.WORDS self.now.at j a)) }
        ensures goes_on { GoesOn W.Words w.old w.new result }
    {
        let first = self.read_cell(w, i)?;
        let second = self.read_cell(w, j)?;
        self.write_cell(w, i, &second[..T::WORDS as usize])?;
        self.write_cell(w, j, &first[..T::WORDS as usize])
    }

    /// The value that the cell at place `i` has in these words, as those that a closed table left.
    pub fn value_in(&self, words: &[u64], i: u32) -> T
        requires place { i < self.now.len }
        requires cells { AreCells T.Coded self.now.at self.now.len words.now }
        ensures { (values : List T)
            → AreCellValues T.Coded self.now.at self.now.len words.now values
            → slice_get values i ≡ Some result }
    {
        self.lies_within(words, i);
        let first = self.first_word(i) as usize;
        match T::of(&words[first..first + T::WORDS as usize]) {
            Some(x) => x,
            None => unreachable!(),
        }
    }

    // The cell at place `i` lies within these words. It does nothing.
    fn lies_within(&self, words: &[u64], i: u32)
        requires place { i < self.now.len }
        requires cells { AreCells T.Coded self.now.at self.now.len words.now }
        ensures { self.now.at + i * T.WORDS + T.WORDS ≤ length words.now }
    {}

    // The first word of the cell at place `i`.
    fn first_word(&self, i: u32) -> u64
        requires place { i < self.now.len }
        ensures { result ≡ self.now.at + i * T.WORDS }
    {
        self.at + u64::from(i) * u64::from(T::WORDS)
    }

    // The words of the cell at place `i`, and behind them nothing that counts.
    fn read_cell<W: Words>(
        &self,
        w: &mut W,
        i: u32,
    ) -> Result<[u64; MOST_WORDS_OF_A_CELL as usize], Stop>
        requires ready { IsReady W.Words w.old }
        requires place { i < self.now.len }
        requires cells { InEachState W.Words W.Shape.Shape w.old
            (AreCells T.Coded self.now.at self.now.len) }
        ensures looks { IfOk result
            (λ words. Looks (W.Shape.word_count (W.shape w.old)) (W.Shape.good (W.shape w.old))
            (W.trace w.old) (W.trace w.new) (λ _. IsOfCell T.WORDS self.now.at i)
            (λ s. cell_words T.Coded self.now.at i s ≡ take T.WORDS words)) }
        ensures goes_on { GoesOn W.Words w.old w.new result }
    {
        let first = self.first_word(i);
        let mut words = [0; MOST_WORDS_OF_A_CELL as usize];
        for k in 0..T::WORDS {
            words[k as usize] = w.read(first + u64::from(k))?;
        }
        Ok(words)
    }

    // Puts these words into the cell at place `i`.
    fn write_cell<W: Words>(&self, w: &mut W, i: u32, words: &[u64]) -> Result<(), Stop>
        requires ready { IsReady W.Words w.old }
        requires place { i < self.now.len }
        requires cells { InEachState W.Words W.Shape.Shape w.old
            (AreCells T.Coded self.now.at self.now.len) }
        requires count { length words.now ≡ T.WORDS }
        ensures puts { OnOk result (LeadsTo W.Words W.Shape.Shape w.old w.new
            (PutsWords (self.now.at + i * T.WORDS) words.now)) }
        ensures frame { OnOk result
            (WritesOnly W.Words w.old w.new (IsOfCell T.WORDS self.now.at i)) }
        ensures reads { OnOk result
            (ReadsOnly W.Words w.old w.new (IsOfCell T.WORDS self.now.at i)) }
        ensures goes_on { GoesOn W.Words w.old w.new result }
    {
        let first = self.first_word(i);
        for k in 0..T::WORDS {
            w.write(first + u64::from(k), words[k as usize])?;
        }
        Ok(())
    }
}

// The words of a value, and behind them nothing that counts.
fn spelled<T: Coded>(value: &T) -> [u64; MOST_WORDS_OF_A_CELL as usize]
    requires few { T.WORDS ≤ MOST_WORDS_OF_A_CELL }
    requires value { T.is_value value.now }
    ensures { take T.WORDS result ≡ T.words value.now }
{
    let mut words = [0; MOST_WORDS_OF_A_CELL as usize];
    for k in 0..T::WORDS {
        words[k as usize] = value.word(k);
    }
    words
}
