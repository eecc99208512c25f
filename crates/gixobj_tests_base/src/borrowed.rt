//! Borrowed header values: those of one line.

use crate::helpers::holds;
use gixobj_base::parse::any_header_field;
use std::borrow::CowSlice;

#[test]
fn borrows_value_of_one_line_only(rt: HostRuntime) {
    let one_line = any_header_field(rt.alloc(), b"x A\n\nhi\n");
    let two_lines = any_header_field(rt.alloc(), b"x A\n B\n\nhi\n");
    assert!(rt; holds!(&one_line, Ok(((_, value), _)) => matches!(value, CowSlice::Borrowed(_))));
    assert!(rt; holds!(&two_lines, Ok(((_, value), _)) => matches!(value, CowSlice::Owned(_))));
}
