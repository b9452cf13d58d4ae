//! That each store has exactly one form. The call does nothing: it stands for this law.

ghost use Rattle.t3t_tag.specs.Form.{HasOneForm};

/// What a reader finds on a store is one of the five forms, and no two of them.
pub fn one_form(store: &[u8])
    ensures { HasOneForm store.now }
{
    let _store = store;
}
