//! Service discovery.

ghost use Rattle.std.specs.Prelude.{◌≡◌, ◌≤◌, ◌*◌, length, IfOk, IfSome, OnOk};
ghost use Rattle.llcp_pdu.specs.Ranges.{AreParams};
ghost use Rattle.llcp_pdu.specs.Views.{HoldsParams, params_in, shown_param};
ghost use Rattle.llcp_pdu.specs.Writing.{params_bytes};
ghost use Rattle.llcp_link.specs.Halting.{IsSame};
ghost use Rattle.llcp_link.specs.Names.{answer_to as answer_of, answers_to as answers_of};
ghost use Rattle.llcp_link.specs.private.Answers.{IsAnswer, AreAnswers, put_one};
ghost use Rattle.llcp_link.specs.Taking.{discovers};

use crate::llc::Llc;
use crate::lookups;
use crate::names::{Bound, found};
use crate::service::Service;
use llcp_pdu::{Param, ParamView, ParamWalk, Part};
use nfc_base::Items;
use std::alloc::{AllocError, Global};

/// The answer to a request.
fn answer_to(bound: &[Bound], param: ParamView<'_>) -> Option<Param>
    ensures answer { result ≡ answer_of bound.now (shown_param param.entry) }
    ensures small { IfSome result IsAnswer }
{
    match param {
        ParamView::SdReq { tid, name } => Some(Param::SdRes {
            tid,
            sap: found(bound, name),
        }),
        _ => None,
    }
}

/// One answer more, while there are fewer than may be.
#[tactic(auto, using(crate::proofs::SdAnswers::one_more))]
fn put_answer(answers: &mut Vec<Param>, answer: Param, most: usize) -> Result<(), AllocError>
    requires answer { IsAnswer answer }
    requires all { AreAnswers most answers.old.items }
    ensures put { OnOk result (answers.new.items ≡ put_one most answer answers.old.items) }
    ensures all { OnOk result (AreAnswers most answers.new.items) }
{
    if answers.len() == most {
        return Ok(());
    }
    match answers.push(answer) {
        Ok(()) => Ok(()),
        Err(_) => Err(AllocError),
    }
}

/// The answers to the first requests of an SNL, at most so many.
fn answers_to(
    alloc: Global,
    bound: &[Bound],
    params: &[u8],
    most: usize,
) -> Result<Items<Param>, AllocError>
    requires { HoldsParams params.now }
    ensures answers { IfOk result (λ ps. ps ≡ answers_of bound.now most (params_in params.now)) }
    ensures range { IfOk result (λ ps. AreParams ps) }
    ensures size { IfOk result (λ ps. length (params_bytes ps) ≤ 4 * most) }
{
    let mut answers = Vec::new(alloc);
    'params: for param in ParamWalk::new(params) {
        if let Some(answer) = answer_to(bound, param) {
            put_answer(&mut answers, answer, most)?;
        }
    }
    Ok(Items::new(answers))
}

impl<S: Service> Llc<S> {
    /// An SNL: what was asked is answered in one, and what is told is kept.
    #[tactic(auto, using(crate::proofs::SdAnswers::discovers_none, crate::proofs::SdAnswers::discovers_some))]
    pub(crate) fn take_snl(&mut self, params: &[u8]) -> Result<(), AllocError>
        requires { HoldsParams params.now }
        ensures ok { OnOk result (self.new ≡ discovers self.old (params_in params.now)) }
        ensures same { IsSame self.old self.new }
        ensures service { self.new.service ≡ self.old.service }
    {
        let most = self.far_miu as usize / 4;
        let answers = answers_to(self.alloc, &self.bound, params, most)?;
        lookups::hear(&mut self.lookups, params);
        if answers.as_slice().is_empty() {
            return Ok(());
        }
        match self.answer_with(Part::Snl(answers)) {
            Err(_) => Err(AllocError),
            Ok(()) => Ok(()),
        }
    }
}
