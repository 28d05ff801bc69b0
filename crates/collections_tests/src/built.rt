//! The words that are built of empty books, on which each part is tried by itself.

ghost use Rattle.std.specs.Prelude.{◌≡◌, [], None, IfOk};
ghost use Rattle.books_model.specs.Ranges.{IsWithin};
ghost use Rattle.books_model.specs.declared.limits.TheConstants.{MOST_BLOCKS};
ghost use Rattle.txn_words.specs.Plainly.{IsSoundPlain};
ghost use Rattle.txn_books.specs.Layout.{words_of};
ghost use Rattle.txn_books.specs.Standing.{IsGoodFor};

use books_model::Books;
use io_ends::OutOfMemory;
use std::alloc::Global;
use txn_books::{BooksShape, build};
use txn_words::Plain;

// So many blocks, one instrument, and a queue of one margin call.
pub(crate) fn built(alloc: Global, blocks: u32) -> Result<Plain<BooksShape>, OutOfMemory>
    requires blocks { IsWithin 1 MOST_BLOCKS blocks }
    ensures shape { IfOk result (λ plain.
        plain.shape ≡ record { blocks = blocks; instruments = 1; ring = 1 }) }
    ensures trace { IfOk result (λ plain. plain.trace ≡ []) }
    ensures stop { IfOk result (λ plain. plain.stop ≡ None) }
    ensures sound { IfOk result (λ plain.
        IsSoundPlain (words_of plain.shape) (IsGoodFor plain.shape) plain) }
{
    let books = Books::new(alloc, blocks, 1, 1);
    let words = build(alloc, &books)?;
    Ok(Plain::new(alloc, BooksShape::of(&books), words))
}
