//! What the tests of a client have in common.

ghost use Rattle.std.specs.Prelude.{◌≡◌, Bool, None};
ghost use Rattle.llcp_link.specs.State.{own_from};

use arrayvec::ArrayVec;
use llcp_link::{Counts, Llc};
use llcp_pdu::LinkParams;
use nfc_base::{Answerer, Carrier, EndCause, Items, LinkEnd};
use snep_core::{Client, NoService, Outcome, Server, SnepFault};
use std::alloc::{AllocError, Global};
use std::fmt::Write;
use std::process::Abort;
use std::test::Fail;

/// General bytes of an end of MIU 128.
const GENERAL: [u8; 10] = [0x46, 0x66, 0x6D, 0x01, 0x01, 0x13, 0x03, 0x02, 0x00, 0x13];

/// Those of an end whose link takes 2,047 bytes.
const WIDE: [u8; 14] = [
    0x46, 0x66, 0x6D, 0x01, 0x01, 0x13, 0x02, 0x02, 0x07, 0x7F, 0x03, 0x02, 0x00, 0x13,
];

/// Those of an end whose link takes as many bytes as one can, 2,175.
const WIDEST: [u8; 14] = [
    0x46, 0x66, 0x6D, 0x01, 0x01, 0x13, 0x02, 0x02, 0x07, 0xFF, 0x03, 0x02, 0x00, 0x13,
];

const PARAMS: LinkParams = LinkParams {
    version: 0x13,
    miu: 128,
    wks: 0x13,
};

/// Hands each payload over at once, until it is over. Once so many passed, the field is lost: before the far end
/// is handed the next one, or as it answered.
#[derive(Drop)]
pub(crate) struct Straight {
    over: Option<EndCause>,
    passes: u8,
    answers: bool,
    last: Option<ArrayVec<u8, 2178>>,
    pub(crate) handed: Vec<Items<u8>>,
}

impl Straight {
    ghost use Rattle.std.specs.Prelude.{◌≡◌, Some, false};

    pub(crate) fn new(alloc: Global, over: Option<EndCause>) -> Straight {
        Straight {
            over,
            passes: 200,
            answers: false,
            last: None,
            handed: Vec::new(alloc),
        }
    }

    /// One that is lost behind so many payloads.
    pub(crate) fn lost(alloc: Global, passes: u8, answers: bool) -> Straight {
        Straight {
            over: None,
            passes,
            answers,
            last: None,
            handed: Vec::new(alloc),
        }
    }

    /// The field is lost.
    fn lose(&mut self, answered: bool) -> LinkEnd
        ensures over { self.new ≡ record self.old { over = Some EndCause.FieldLost } }
        ensures told { result ≡ record { cause = EndCause.FieldLost; answered = answered } }
    {
        self.over = Some(EndCause::FieldLost);
        LinkEnd {
            cause: EndCause::FieldLost,
            answered,
        }
    }

    fn end(&mut self) -> LinkEnd
        ensures over { self.new ≡ record self.old { over = Some EndCause.Memory } }
        ensures told { result ≡ record { cause = EndCause.Memory; answered = false } }
    {
        self.over = Some(EndCause::Memory);
        LinkEnd {
            cause: EndCause::Memory,
            answered: false,
        }
    }
}

impl Carrier for Straight {
    ghost use Rattle.std.specs.Prelude.{[], false, ⊤, is_some, if◌then◌else◌};
    ghost use Rattle.std.specs.Option.{option_map};

    ghost seen = { λ c. record {
      over = c.over;
      dark = false;
      counts = record { breaks = if is_some c.over then 1 else 0; six_bad = 0; odd = 0 };
      noise = if is_some c.over then 1 else 0;
      handed = c.handed.items;
      last = option_map (λ l. l.items) c.last;
    } };

    ghost lenders = { λ _. [] };

    ghost ready = { λ _. ⊤ };

    ghost swaps = { λ _ _ _ _. ⊤ };

    fn swap<A: Answerer>(
        &mut self,
        alloc: Global,
        out: &[u8],
        far: &mut A,
    ) -> Result<Vec<u8>, LinkEnd> {
        if let Some(cause) = self.over {
            return Err(LinkEnd {
                cause,
                answered: false,
            });
        }
        let mut sent = ArrayVec::new();
        sent.try_extend_from_slice(out).unwrap();
        self.last = Some(sent);
        if self.passes == 0 && !self.answers {
            return Err(self.lose(false));
        }
        let Ok(payload) = Items::from_bytes(alloc, out) else {
            return Err(self.end());
        };
        if self.handed.reserve(1).is_err() {
            return Err(self.end());
        }
        self.handed.push(payload).unwrap();
        let mut reply = Vec::new(alloc);
        match far.answer(alloc, out, &mut reply) {
            Err(_) => Err(self.end()),
            Ok(()) => {
                if self.passes == 0 {
                    return Err(self.lose(true));
                }
                self.passes -= 1;
                Ok(reply)
            }
        }
    }
}

/// An end with a server at SAP 4, at the begin of a link.
pub(crate) fn peer(rt: &impl Abort, alloc: Global) -> Result<Llc<Server>, Fail> {
    let mut llc = Llc::new(alloc, PARAMS, 1, Server::new(alloc, 1024));
    assert_eq!(rt; llc.listen("urn:nfc:sn:snep", 4), Ok(()));
    llc.restart(&GENERAL);
    Ok(llc)
}

/// A client that takes units of 128 bytes, four at a time, and the end with the server, which may send it 2,047 bytes
/// at once.
pub(crate) fn wide_ends(rt: &impl Abort, alloc: Global) -> Result<(Client, Llc<Server>), Fail> {
    let mut near = Llc::new(alloc, PARAMS, 4, NoService);
    near.restart(&GENERAL);
    let mut far = peer(rt, alloc)?;
    far.restart(&WIDE);
    Ok((Client::new(alloc, near), far))
}

/// A client that may hand over 2,047 bytes at once, and an end with a server that takes units of 128 bytes, four at a
/// time.
pub(crate) fn roomy_ends(rt: &impl Abort, alloc: Global) -> Result<(Client, Llc<Server>), Fail> {
    let mut near = Llc::new(alloc, PARAMS, 1, NoService);
    near.restart(&WIDE);
    let mut far = Llc::new(alloc, PARAMS, 4, Server::new(alloc, 1024));
    assert_eq!(rt; far.listen("urn:nfc:sn:snep", 4), Ok(()));
    far.restart(&GENERAL);
    Ok((Client::new(alloc, near), far))
}

/// Both ends with the largest MIU and window, and a server that takes the longest messages.
pub(crate) fn widest_ends(rt: &impl Abort, alloc: Global) -> Result<(Client, Llc<Server>), Fail> {
    let params = LinkParams {
        version: 0x13,
        miu: 2175,
        wks: 0x13,
    };
    let mut near = Llc::new(alloc, params, 15, NoService);
    near.restart(&WIDEST);
    let mut far = Llc::new(alloc, params, 15, Server::new(alloc, 65536));
    assert_eq!(rt; far.listen("urn:nfc:sn:snep", 4), Ok(()));
    far.restart(&WIDEST);
    Ok((Client::new(alloc, near), far))
}

/// A client at the begin of a link.
pub(crate) fn client(alloc: Global) -> Client {
    let mut llc = Llc::new(alloc, PARAMS, 1, NoService);
    llc.restart(&GENERAL);
    Client::new(alloc, llc)
}

/// One call of a client, or a look at what was handed over or accepted.
#[derive(Clone, Copy)]
pub(crate) enum Step {
    Lookup(&'static str),
    Put(&'static [u8]),
    /// A value of at most so many bytes is asked for by its key.
    Get(u32, &'static [u8]),
    /// The same on a slot, by these numbers of PDUs.
    GetOn(u8, u32, &'static [u8], &'static [u32]),
    /// All connections end, by these numbers of PDUs.
    Close(&'static [u32]),
    /// A message is staged on a slot.
    Stage(u8, &'static [u8]),
    /// What is staged is put, by these numbers of PDUs.
    Run(&'static [u32]),
    /// What became of the message of a slot.
    Outcome(u8),
    /// The server gets a value under this key.
    Offer(&'static [u8], &'static [u8]),
    /// How many payloads were handed over.
    Handed,
    /// The payload that was handed over at this place.
    Payload(usize),
    /// Its first three bytes.
    Begin(usize),
    /// How many messages the server accepted.
    Accepted,
    /// The message that it accepted at this place.
    Message(usize),
    /// The SAP that this came from.
    Source(usize),
}

fn is_all(bytes: &[u8], one: u8) -> bool {
    for byte in bytes {
        if *byte != one {
            return false;
        }
    }
    true
}

fn in_hex(alloc: Global, bytes: &[u8]) -> Result<String, Fail> {
    let mut text = String::new(alloc);
    for byte in bytes {
        write!(text, "{byte:02X}")?;
    }
    Ok(text)
}

/// Bytes in hexadecimal, many equal ones as "300 of 09".
fn written(alloc: Global, bytes: &[u8]) -> Result<String, Fail> {
    match bytes {
        [first, _, ..] if is_all(bytes, *first) => Ok(format!(in alloc;
            "{} of {first:02X}",
            bytes.len()
        )?),
        _ => in_hex(alloc, bytes),
    }
}

fn written_at(alloc: Global, all: &[Items<u8>], place: usize) -> Result<String, Fail> {
    match all.get(place) {
        Some(one) => written(alloc, one.as_slice()),
        None => Ok(format!(in alloc; "none")?),
    }
}

fn looked_up(
    rt: &impl Abort,
    alloc: Global,
    client: &mut Client,
    link: &mut Straight,
    far: &mut Llc<Server>,
    name: &str,
) -> Result<u8, SnepFault> {
    assert!(rt; name.len() <= 64);
    client.lookup(link, far, Counts::most(alloc), name)
}

fn put(
    rt: &impl Abort,
    alloc: Global,
    client: &mut Client,
    link: &mut Straight,
    far: &mut Llc<Server>,
    message: &[u8],
) -> Result<(), SnepFault> {
    assert!(rt; message.len() <= 65536);
    client.put(link, far, Counts::most(alloc), message)
}

fn got(
    rt: &impl Abort,
    alloc: Global,
    client: &mut Client,
    link: &mut Straight,
    far: &mut Llc<Server>,
    most: u32,
    key: &[u8],
) -> Result<Vec<u8>, SnepFault> {
    assert!(rt; key.len() <= 65536);
    client.get(link, far, Counts::most(alloc), most, key)
}

pub(crate) fn numbered(alloc: Global, numbers: &[u32]) -> Result<Counts, AllocError> {
    Ok(Counts::new(Vec::from_slice(alloc, numbers)?))
}

fn got_on(
    rt: &impl Abort,
    client: &mut Client,
    link: &mut Straight,
    far: &mut Llc<Server>,
    slot: u8,
    most: u32,
    key: &[u8],
    counts: Counts,
) -> Result<Vec<u8>, SnepFault> {
    assert!(rt; slot < 8);
    assert!(rt; key.len() <= 65536);
    client.get_on(link, far, counts, slot, most, key)
}

pub(crate) fn staged(
    rt: &impl Abort,
    client: &mut Client,
    slot: u8,
    message: &[u8],
) -> Result<(), SnepFault> {
    assert!(rt; slot < 8);
    assert!(rt; message.len() <= 65536);
    client.stage(slot, message)
}

pub(crate) fn outcome(rt: &impl Abort, client: &Client, slot: u8) -> Outcome {
    assert!(rt; slot < 8);
    client.outcome(slot)
}

/// The first bytes of a payload.
fn begin_of(alloc: Global, all: &[Items<u8>], place: usize) -> Result<String, Fail> {
    match all.get(place) {
        Some(one) => match one.as_slice() {
            [a, b, c, ..] => in_hex(alloc, &[*a, *b, *c]),
            short => in_hex(alloc, short),
        },
        None => Ok(format!(in alloc; "none")?),
    }
}

/// A value, or why there is none.
fn written_value(alloc: Global, got: Result<Vec<u8>, SnepFault>) -> Result<String, Fail> {
    match got {
        Ok(value) => written(alloc, &value),
        Err(fault) => Ok(format!(in alloc; "{fault:?}")?),
    }
}

fn offered(
    rt: &impl Abort,
    far: &mut Llc<Server>,
    key: &[u8],
    value: &[u8],
) -> Result<(), AllocError> {
    assert!(rt; value.len() <= 65536);
    far.service().offer(key, value)
}

fn done(alloc: Global, told: Result<(), SnepFault>) -> Result<String, Fail> {
    Ok(format!(in alloc; "{told:?}")?)
}

/// What the step comes to.
fn told(
    rt: &impl Abort,
    alloc: Global,
    client: &mut Client,
    link: &mut Straight,
    far: &mut Llc<Server>,
    step: Step,
) -> Result<String, Fail> {
    match step {
        Step::Lookup(name) => {
            let sap = looked_up(rt, alloc, client, link, far, name);
            Ok(format!(in alloc; "{sap:?}")?)
        }
        Step::Put(message) => done(alloc, put(rt, alloc, client, link, far, message)),
        Step::Get(most, key) => written_value(alloc, got(rt, alloc, client, link, far, most, key)),
        Step::GetOn(slot, most, key, numbers) => {
            let counts = numbered(alloc, numbers)?;
            written_value(
                alloc,
                got_on(rt, client, link, far, slot, most, key, counts),
            )
        }
        Step::Close(numbers) => {
            let counts = numbered(alloc, numbers)?;
            done(alloc, client.close(link, far, counts))
        }
        Step::Stage(slot, message) => done(alloc, staged(rt, client, slot, message)),
        Step::Run(numbers) => {
            let counts = numbered(alloc, numbers)?;
            done(alloc, client.run(link, far, counts))
        }
        Step::Outcome(slot) => Ok(format!(in alloc; "{:?}", outcome(rt, client, slot))?),
        Step::Offer(key, value) => Ok(format!(in alloc; "{:?}", offered(rt, far, key, value))?),
        Step::Handed => Ok(format!(in alloc; "{}", link.handed.len())?),
        Step::Payload(place) => written_at(alloc, link.handed.as_slice(), place),
        Step::Begin(place) => begin_of(alloc, link.handed.as_slice(), place),
        Step::Accepted => Ok(format!(in alloc; "{}", far.as_service().accepted().len())?),
        Step::Message(place) => written_at(alloc, far.as_service().accepted(), place),
        Step::Source(place) => {
            Ok(format!(in alloc; "{:?}", far.as_service().sources().get(place))?)
        }
    }
}

/// The steps come to these texts, one after the other.
pub(crate) fn follows(
    rt: &impl Abort,
    alloc: Global,
    client: &mut Client,
    far: &mut Llc<Server>,
    rows: &[(Step, &str)],
) -> Result<(), Fail> {
    let mut link = Straight::new(alloc, None);
    for (at, (step, wanted)) in rows.iter().enumerate() {
        let text = told(rt, alloc, client, &mut link, far, *step)?;
        assert_eq!(rt; text.as_str(), *wanted, "at row {at}");
    }
    Ok(())
}

/// The same of a new client and a new server.
pub(crate) fn new_ends(rt: &impl Abort, alloc: Global, rows: &[(Step, &str)]) -> Result<(), Fail> {
    follows(rt, alloc, &mut client(alloc), &mut peer(rt, alloc)?, rows)
}
