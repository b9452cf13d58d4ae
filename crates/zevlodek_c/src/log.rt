//! What passed between a reader and a tag, as C keeps it.

ghost use Rattle.std.specs.Prelude.{◌≡◌, ◌<◌, ◌++◌, List, ℕ, None, length, IfOk, IfSome, IsErrOf};
ghost use Rattle.zevlodek_c.specs.Log.{IsNoLog, SpellsTurn, SpellsTurns, counted};
ghost use Rattle.tag_steps.specs.declared.turn.Turn.{Turn};

use nfc_base::{Frame, Tech};
use std::alloc::Global;
use tag_steps::Turn;

/// Why no turns are read off some bytes.
#[derive(Clone, Copy, Debug, Drop)]
pub enum LogFault {
    Bad,
    Memory,
}

/// So many bytes as the first two say, low byte first, and what stands behind them.
pub fn counted(log: &[u8]) -> Option<(&[u8], &[u8])>
    ensures some { IfSome result (λ p. (log.now ≡ counted p.0.now ++ p.1.now) × (length p.0.now < 65536)) }
    ensures none { result ≡ None → (bytes rest : List ℕ) → length bytes < 65536 → log.now ≡ counted bytes ++ rest → ⊥ }
{
    let [low, high, rest @ ..] = log else {
        return None;
    };
    let size = *low as usize + 256 * *high as usize;
    if rest.len() < size {
        return None;
    }
    Some(rest.split_at(size))
}

/// The turn that a log begins with, and what stands behind it.
fn turn_of(tech: Tech, log: &[u8]) -> Option<(Turn, &[u8])>
    ensures some { IfSome result (λ p. SpellsTurn tech p.0 log.now p.1.now) }
    ensures none { result ≡ None → (t : Turn) (rest : List ℕ) → SpellsTurn tech t log.now rest → ⊥ }
{
    let [bits, rest @ ..] = log else {
        return None;
    };
    let (command, rest) = counted(rest)?;
    let (answer, rest) = counted(rest)?;
    let command = Frame::whole(tech, command).ok()?;
    let answer = Frame::part(tech, answer, *bits).ok()?;
    Some((Turn { command, answer }, rest))
}

/// The turns of a log.
pub fn turns_of(alloc: Global, tech: Tech, log: &[u8]) -> Result<Vec<Turn>, LogFault>
    ensures ok { IfOk result (λ turns. SpellsTurns tech turns.items log.now) }
    ensures bad { IsErrOf result LogFault.Bad → IsNoLog tech log.now }
{
    let mut turns = Vec::new(alloc);
    let mut rest = log;
    while !rest.is_empty() {
        let Some((turn, left)) = turn_of(tech, rest) else {
            return Err(LogFault::Bad);
        };
        if turns.push(turn).is_err() {
            return Err(LogFault::Memory);
        }
        rest = left;
    }
    Ok(turns)
}
