//! Type 3 tags are found, and one of them is sought, under some fates.

use air_core::Field;
use bench_devices::{Device, PoweredTag};
use nfc_base::Fate;
use nfca_poll::PollFault;
use std::alloc::Global;
use std::test::Fail;
use t3t_access::{Fcrowd, pick_f, poll_f};
use t3t_tag::T3Tag;

/// The attribute block of a tag that holds no message.
const ATTRIBUTES: [u8; 16] = [0x10, 4, 1, 0, 1, 0, 0, 0, 0, 0, 1, 0, 0, 0, 0, 0x17];

/// Tags of two blocks whose identifiers end with these bytes, in a lit field with these fates to come.
fn tags(alloc: Global, ends: &[u8], fates: &[Fate]) -> Result<Field<Device>, Fail> {
    let mut field = Field::new(alloc);
    for end in ends {
        let mut store = ATTRIBUTES.to_vec(alloc)?;
        for _ in 0..16u8 {
            store.push(0)?;
        }
        let tag = T3Tag::new([1, 2, 3, 4, 5, 6, 7, *end], store)?;
        field.put_in(Device::T3(PoweredTag::new(tag)))?;
    }
    field.reset()?;
    field.add_fates(fates)?;
    Ok(field)
}

const LOST: [Fate; 8] = [Fate::Lose; 8];

/// Each request passes, and each answer is damaged.
const DAMAGED: [Fate; 8] = [
    Fate::Pass,
    Fate::Damage,
    Fate::Pass,
    Fate::Damage,
    Fate::Pass,
    Fate::Damage,
    Fate::Pass,
    Fate::Damage,
];

/// The tags, the fates, what a search finds, and how many transmissions it makes.
const FOUND: [(&[u8], &[Fate], Result<Fcrowd, PollFault>, usize); 9] = [
    (&[], &[], Ok(Fcrowd::Nobody), 4),
    (&[8], &[], Ok(Fcrowd::One([1, 2, 3, 4, 5, 6, 7, 8])), 2),
    (&[8, 9], &[], Ok(Fcrowd::Crowd), 2),
    (&[8], &LOST, Ok(Fcrowd::Nobody), 4),
    (
        &[8],
        &[Fate::Pass, Fate::Lose],
        Ok(Fcrowd::One([1, 2, 3, 4, 5, 6, 7, 8])),
        4,
    ),
    (
        &[8],
        &[Fate::Damage],
        Ok(Fcrowd::One([1, 2, 3, 4, 5, 6, 7, 8])),
        3,
    ),
    (&[8], &DAMAGED, Err(PollFault::Disturbed), 8),
    (&[8, 9], &DAMAGED, Err(PollFault::Disturbed), 8),
    (
        &[8],
        &[Fate::Pass, Fate::Break],
        Err(PollFault::FieldLost),
        2,
    ),
];

#[test]
fn what_a_search_for_type_3_tags_finds(rt: HostRuntime) -> Result<(), Fail> {
    for &(ends, fates, found, sent) in &FOUND {
        let mut field = tags(rt.alloc(), ends, fates)?;
        let outcome = (poll_f(&mut field), field.trace().len());
        let wanted = (found, sent.saturating_add(1));
        assert_eq!(rt; outcome, wanted, "{ends:?} {fates:?}");
    }
    Ok(())
}

/// The tags, the fates, and what seeking the one that ends with 8 comes to.
const SOUGHT: [(&[u8], &[Fate], Result<(), PollFault>); 8] = [
    (&[], &[], Err(PollFault::NotFound)),
    (&[8], &[], Ok(())),
    (&[9], &[], Err(PollFault::NotFound)),
    (&[8, 9], &[], Ok(())),
    (&[8], &LOST, Err(PollFault::NotFound)),
    (&[9], &DAMAGED, Ok(())),
    (&[8], &[Fate::Damage, Fate::Pass, Fate::Damage], Ok(())),
    (&[8], &[Fate::Break], Err(PollFault::FieldLost)),
];

#[test]
fn what_seeking_a_type_3_tag_comes_to(rt: HostRuntime) -> Result<(), Fail> {
    for &(ends, fates, told) in &SOUGHT {
        let mut field = tags(rt.alloc(), ends, fates)?;
        assert_eq!(rt;
            pick_f(&mut field, [1, 2, 3, 4, 5, 6, 7, 8]),
            told,
            "{ends:?} {fates:?}"
        );
    }
    Ok(())
}
