//! Tags in memory that obey at once.

ghost use Rattle.std.specs.Prelude.{◌≡◌, ℕ, List, Bool, Option, [], None, Some, true, false};
ghost use Rattle.nfc_base.specs.Signal.{Signal};
ghost use Rattle.nfc_base.specs.TagLinks.{TagKind, Type2, Type3, Type4, Type5, TagState, TagStep, plain_state};
ghost use Rattle.t3t_tag.specs.Linked.{t3_step};
ghost use Rattle.tag_reader.specs.Files.{shown, t4_link_step};
ghost use Rattle.tag_reader.specs.Kinds.{t2_step, t5_step};

use nfc_base::{Frame, Tech};
use t2t_tag::T2Tag;
use t3t_tag::T3Tag;
use t4t_tag::T4Tag;
use t5t_tag::T5Tag;

/// A tag that obeys at once.
pub trait Card {
    ghost kind: { Self → TagKind };

    ghost identifier: { Self → List ℕ };

    ghost state: { Self → TagState };

    ghost step: { Self → TagState → Signal → TagStep };

    fn hear(&mut self, command: &Frame) -> Option<Frame>
        ensures answer { (step self.old (state self.old) command.now).answer ≡ result }
        ensures after { (step self.old (state self.old) command.now).after ≡ state self.new }
        ensures kind { kind self.new ≡ kind self.old }
        ensures identifier { identifier self.new ≡ identifier self.old }
        ensures step { step self.new ≡ step self.old };
}

impl Card for T2Tag {
    ghost kind = { λ _. Type2 };

    ghost identifier = { λ _. [] };

    ghost state = { λ t. plain_state t.store };

    ghost step = { λ t. t2_step t.locked };

    #[tactic(auto, using(tag_reader::proofs::Cards::t2_same))]
    fn hear(&mut self, command: &Frame) -> Option<Frame> {
        self.obey(command)
    }
}

impl Card for T3Tag {
    ghost kind = { λ _. Type3 };

    ghost identifier = { λ t. t.id };

    ghost state = { λ t. plain_state t.store };

    ghost step = { λ t. t3_step t.id t.locked };

    fn hear(&mut self, command: &Frame) -> Option<Frame> {
        self.obey(command)
    }
}

impl Card for T4Tag {
    ghost kind = { λ _. Type4 };

    ghost identifier = { λ _. [] };

    ghost state = { λ t. shown t };

    ghost step = { λ t. t4_link_step t.code };

    fn hear(&mut self, command: &Frame) -> Option<Frame> {
        let _shape = self.file();
        let answer = self.obey(command.view());
        Some(Frame::whole(Tech::A, answer.as_slice()).unwrap())
    }
}

/// A Type 5 tag that doesn't stay quiet, and is in no round of slots.
#[derive(Drop)]
pub struct Awake {
    pub tag: T5Tag,
    ghost awake: { tag.quiet ≡ false },
    ghost apart: { tag.round ≡ None },
}

impl Card for Awake {
    ghost kind = { λ _. Type5 };

    ghost identifier = { λ t. t.tag.id };

    ghost state = { λ t. plain_state t.tag.store };

    ghost step = { λ t. t5_step t.tag.id t.tag.size t.tag.locked t.tag.quiet };

    fn hear(&mut self, command: &Frame) -> Option<Frame> {
        let answer = self.tag.obey(command);
        self.tag.dark();
        answer
    }
}

/// A tag that gives one answer to whatever it is asked.
#[derive(Drop)]
pub struct Odd<C> {
    pub card: C,
    pub answer: Frame,
}

impl<C: Card> Card for Odd<C> {
    ghost kind = { λ o. C.kind o.card };

    ghost identifier = { λ o. C.identifier o.card };

    ghost state = { λ o. C.state o.card };

    ghost step = { λ o s _. record { answer = Some o.answer; after = s } };

    fn hear(&mut self, _command: &Frame) -> Option<Frame> {
        Some(self.answer.copy())
    }
}

/// A tag that answers nothing.
#[derive(Drop)]
pub struct Mute<C> {
    pub card: C,
}

impl<C: Card> Card for Mute<C> {
    ghost kind = { λ m. C.kind m.card };

    ghost identifier = { λ m. C.identifier m.card };

    ghost state = { λ m. C.state m.card };

    ghost step = { λ _ s _. record { answer = None; after = s } };

    fn hear(&mut self, _command: &Frame) -> Option<Frame> {
        None
    }
}
