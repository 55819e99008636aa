// The editions of a flow, which the caller names by number: 1 is document 01's, with OIL's flat header; 2 has the header of OPI 1.2.2.
#![tactic(auto)]

ghost use Rattle.std.specs.Prelude.{◌≡◌};
ghost use Rattle.editions.specs.Editions.{edition_of};

#[derive(Clone, Copy)]
pub enum Edition {
    Oil,
    Opi,
}

// The edition of a number of any size: nothing is cut before it is compared.
pub fn edition_of(n: u64) -> Option<Edition>
    ensures { result ≡ edition_of n }
{
    match n {
        1 => Some(Edition::Oil),
        2 => Some(Edition::Opi),
        _ => None,
    }
}
