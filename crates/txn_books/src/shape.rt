//! Which word lists stand for books.

ghost use Rattle.std.specs.Prelude.{◌≡◌};
ghost use Rattle.txn_books.specs.Layout.{shape_of};

use books_model::Books;
use history_model::Shape;

/// The sizes of clearing books.
///
/// As a shape it says how many words such books take, and which word lists are good: those that stand for some books
/// of these sizes.
#[derive(Clone, Copy, Debug, PartialEq, Eq)]
pub struct BooksShape {
    /// How many blocks there are. An account, a position and a price take one each.
    pub blocks: u32,
    /// How many instruments there are, numbered from 1.
    pub instruments: u32,
    /// How many margin calls the queue holds at most.
    pub ring: u32,
}

impl BooksShape {
    /// The sizes of these books.
    pub fn of(books: &Books) -> BooksShape
        ensures { result ≡ shape_of books.now }
    {
        BooksShape {
            blocks: books.blocks(),
            instruments: books.instruments(),
            ring: books.ring(),
        }
    }
}

impl Shape for BooksShape {
    ghost use Rattle.txn_books.specs.Layout.{words_of};
    ghost use Rattle.txn_books.specs.Standing.{IsGoodFor};

    ghost word_count = { λ shape. words_of shape };

    ghost good = { λ shape words. IsGoodFor shape words };
}
