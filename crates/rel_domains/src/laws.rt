//! Laws of products, sums and power sets, each the contract of a function with an empty body.
ghost use Rattle.rel_domains.specs.Laws.{ProjectionLaws, InjectionLaws, MembershipLaw};

/// `p*p^ & q*q^ = I`; `p^*p = I` and `q^*q = I`, or `O` if the other factor is empty; `p^*q = L`.
pub fn projections()
    ensures { ProjectionLaws }
{}

/// `i*i^ = I`, `k*k^ = I`, `i*k^ = O`, `i^*i | k^*k = I`.
pub fn injections()
    ensures { InjectionLaws }
{}

/// `syq(e,e) = I`.
pub fn membership()
    ensures { MembershipLaw }
{}
