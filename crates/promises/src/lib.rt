// That every answer is pinned down: each public promise of the libraries admits one answer only. Theorems over the functions' own
// contracts: specs/ states them, proofs/ proves them.
#![tactic(auto)]

ghost use Rattle.promises.specs.OneAnswer.{EachPromise};
ghost use Rattle.promises.specs.OneLentAnswer.{EachLentPromise};

// It does nothing. Each theorem is a line of its promise, since a theorem that no function needs can be taken out unseen.
pub fn every_answer_is_pinned_down()
    ensures each_promise { EachPromise }
    ensures each_lent_promise { EachLentPromise }
{}
