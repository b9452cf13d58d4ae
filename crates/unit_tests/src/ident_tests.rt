//! Bytes that are identifiers, and bytes that are none.

use nfca_poll::{Ident, IdentFault};
use std::process::Abort;

const BYTES: [u8; 11] = [4, 2, 3, 0x88, 5, 6, 0x88, 8, 9, 10, 11];

/// 0 where these bytes are an identifier, which has them then, as its copy does; or the number of their fault.
fn told(rt: &impl Abort, bytes: &[u8]) -> u8 {
    match Ident::new(bytes) {
        Ok(id) => {
            assert_eq!(rt; id.copy().view(), bytes);
            0
        }
        Err(fault) => fault.number(),
    }
}

#[test]
fn identifiers(rt: HostRuntime) {
    let faults = [1, 1, 1, 1, 0, 1, 1, 2, 1, 1, 0, 1];
    for (size, wanted) in faults.iter().enumerate() {
        let fault = told(&rt, &BYTES[..size.min(11)]);
        assert_eq!(rt; fault, *wanted, "of {size} bytes");
    }
    assert_eq!(rt; Ident::new(&BYTES[3..7]), Err(IdentFault::BadCascade));
}
