//! Tests of the search for pairs, bracket by bracket.

use bidi_base::brackets::{Bracket, PairSearch};
use std::test::Fail;

#[test]
fn pairs_one_by_one(rt: HostRuntime) -> Result<(), Fail> {
    let mut search = PairSearch::new(rt.alloc());
    search.read(&Bracket {
        index: 1,
        opening: '(',
        is_open: true,
    })?;
    search.read(&Bracket {
        index: 4,
        opening: '(',
        is_open: false,
    })?;
    assert_eq!(rt; search.finish(), [(1, 4)].as_slice());
    search.clear();
    assert!(rt; search.finish().is_empty());
    Ok(())
}
