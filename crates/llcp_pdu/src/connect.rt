//! What a CONNECT or a CC says of its sender.

ghost use Rattle.std.specs.Prelude.{◌≡◌, option_map};
ghost use Rattle.llcp_pdu.specs.Params.{last_of, later, miux_in, rw_in, name_in};
ghost use Rattle.llcp_pdu.specs.Views.{HoldsParams, named, params_in, shown_param};

use crate::param_walk::{ParamView, ParamWalk};

/// What a CONNECT or a CC says of its sender (NFC Forum LLCP 1.3): how much its MIU is above 128, its receive window,
/// and in a CONNECT the name of the service that is asked for; each where it is said, of repeated parameters the last.
#[derive(Clone, Copy, Debug, Drop, PartialEq, Eq)]
pub struct ConnectParams<'a> {
    pub miux: Option<u16>,
    pub rw: Option<u8>,
    pub name: Option<&'a [u8]>,
}

impl<'a> ConnectParams<'a> {
    /// What the parameters say in a slice that `view` gave. It takes no memory.
    pub fn new(params: &'a [u8]) -> ConnectParams<'a>
        requires { HoldsParams params.now }
        ensures miux { result.miux ≡ last_of miux_in (params_in params.now) }
        ensures rw { result.rw ≡ last_of rw_in (params_in params.now) }
        ensures name { named result ≡ last_of name_in (params_in params.now) }
    {
        let mut said = ConnectParams {
            miux: None,
            rw: None,
            name: None,
        };
        'params: for param in ParamWalk::new(params) {
            said.hear(param);
        }
        said
    }

    /// One more parameter is heard.
    fn hear(&mut self, param: ParamView<'a>)
        ensures miux { self.new.miux ≡ later (miux_in (shown_param param.entry)) self.old.miux }
        ensures rw { self.new.rw ≡ later (rw_in (shown_param param.entry)) self.old.rw }
        ensures name { named self.new ≡ later (name_in (shown_param param.entry)) (named self.old) }
    {
        match param {
            ParamView::Miux(miux) => self.miux = Some(miux),
            ParamView::Rw(rw) => self.rw = Some(rw),
            ParamView::Sn(name) => self.name = Some(name),
            _ => {}
        }
    }
}
