// Why a swept and folded graph is the smallest: theorems on the definitions of crate `unfolding`. A function here has a theorem for its
// contract, and nothing to do.

#![tactic(auto)]

ghost use Rattle.least.specs.Theorems.{Least, FinishLeast, OrdersAgree};

// Where everything is reached and no two sections are alike, no graph with alike roots has fewer sections.
#[tactic(auto, using(crate::proofs::Theorems::is_least))]
pub fn is_least()
    ensures { Least }
{}

// No graph with alike roots has fewer sections than a graph has after a sweep and a fold, in either order.
pub fn finish_least()
    ensures { FinishLeast }
{}

// The two orders leave as many sections.
#[tactic(auto, using(crate::proofs::Theorems::orders_agree))]
pub fn orders_agree()
    ensures { OrdersAgree }
{}
