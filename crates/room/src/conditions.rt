// The conditions under which a room reads envelopes.
ghost use Rattle.std.specs.Prelude.{◌≤◌, length};
ghost use Rattle.envelope.specs.Terms.{most_terms_bytes};

// An engine, a lot and its terms, as a room lends them to the reading of one envelope or of all.
#[derive(Drop)]
pub(crate) struct Conditions<'a, E> {
    pub(crate) engine: &'a E,
    pub(crate) lot: u32,
    pub(crate) terms: &'a [u8],
    ghost short: { length terms.now ≤ most_terms_bytes },
}
