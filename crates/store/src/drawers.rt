// Which drawer holds what. The one behind the root's and the one behind the cursor's stay free, for second copies.
ghost use Rattle.std.specs.Prelude.{◌≡◌};
ghost use Rattle.store.specs.Drawers.{root_drawer, cursor_drawer, page_drawer, DrawersLaw};

use crate::records::PageSet;
use sums::cells::PAGES;

const ROOT: u8 = 0;

const CURSOR: u8 = 2;
// The pages of a set lie in drawers side by side.
const FIRST_SET: u8 = 8;

const SECOND_SET: u8 = 16;

// A function and no constant, so that a contract says which drawer it is.
pub fn root_drawer() -> u8
    ensures { result ≡ root_drawer }
{
    ROOT
}

pub fn cursor_drawer() -> u8
    ensures { result ≡ cursor_drawer }
{
    CURSOR
}

// The drawer of a page of a set, if there are such a set and page.
pub fn page_drawer(set: PageSet, page: u64) -> Option<u8>
    ensures { result ≡ page_drawer set page }
{
    if page >= PAGES {
        return None;
    }
    match set {
        PageSet::None => None,
        PageSet::First => Some(FIRST_SET + page as u8),
        PageSet::Second => Some(SECOND_SET + page as u8),
    }
}

// Theorem: no two of these, nor those that stay free, are the same drawer.
pub fn drawers_law()
    ensures { DrawersLaw }
{}
