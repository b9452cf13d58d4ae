//! A service that sends nothing.

use llcp_link::Service;
use nfc_base::Items;
use std::alloc::{AllocError, Global};

/// A service with nothing to send, for an end that only asks.
#[derive(Debug, Drop)]
pub struct NoService;

impl Service for NoService {
    ghost use Rattle.snep_core.specs.Talk.{silent};

    ghost serving = { silent };

    fn restart(&mut self) {}

    fn begin(&mut self, _ssap: u8) {}

    fn unit(&mut self, _alloc: Global, _ssap: u8, _unit: &[u8]) -> Result<(), AllocError> {
        Ok(())
    }

    fn next(
        &mut self,
        _alloc: Global,
        _ssap: u8,
        _miu: u16,
    ) -> Result<Option<Items<u8>>, AllocError> {
        Ok(None)
    }

    fn next_len(&self, _ssap: u8, _miu: u16) -> Option<usize> {
        None
    }
}
