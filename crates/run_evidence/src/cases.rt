//! The cases of what is loaded and of books.

ghost use Rattle.std.specs.Prelude.{◌≡◌};
ghost use Rattle.std.specs.Arc.{arc_value};
ghost use Rattle.case_file.specs.Cases.{IsCase};

use case_file::Case;
use case_load::Loaded;
use commit_book::Book;

/// The case of what is loaded.
pub fn case_of(loaded: &Loaded) -> &Case
    ensures value { result.now ≡ arc_value loaded.now.case }
    ensures case { IsCase result.now }
{
    let case: &Case = &loaded.case;
    let _store = case.store();
    case
}

/// The case of a book.
pub fn case_in(book: &Book) -> &Case
    ensures value { result.now ≡ book.now.case }
    ensures case { IsCase result.now }
{
    let case: &Case = book.case();
    let _store = case.store();
    case
}
