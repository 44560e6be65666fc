// What the rulebook comes to: the customer's demands (RULES, 'The three demands'), and the lease that they are for, as
// theorems over the definitions that the code is proved to equal. specs/ states them, proofs/ proves them.
#![tactic(auto)]

ghost use Rattle.rules.specs.Readings.{ReadingsHold};
ghost use Rattle.rules.specs.Stored.{MasksHold};
ghost use Rattle.claims.specs.Refusals.{RefusalsMoveNothing, RecordRefusalsMoveNothing, RunRefusalsMoveNothing, ReadsMoveNothing};
ghost use Rattle.claims.specs.Numbers.{EachAnswer, EachRecord, EachRun};
ghost use Rattle.claims.specs.Grounds.{FiveExactlyWhen};
ghost use Rattle.claims.specs.Contexts.{NoWriteMakesFive};
ghost use Rattle.claims.specs.Ten.{TenExactlyWhen};
ghost use Rattle.claims.specs.Reach.{WhoReachesControls};
ghost use Rattle.claims.specs.Offset.{WhoSeesCntpoff};
ghost use Rattle.claims.specs.Writes.{WritesChangeOne, ReadsGive, DoneIsPermitted};
ghost use Rattle.claims.specs.ReadBack.{TimerReadsBack, TvalReadsBack, LeftAsWritten, EnabledAfterwards, ReadFollowsWrite};
ghost use Rattle.claims.specs.Controls.{ControlsReadBack};
ghost use Rattle.claims.specs.WrittenBits.{WrittenBitsRule};
ghost use Rattle.claims.specs.Kernel.{KernelExample};
ghost use Rattle.claims.specs.Guests.{GuestClaim};
ghost use Rattle.claims.specs.Journals.{JournalClaim};
ghost use Rattle.claims.specs.TwoMachines.{TwoMachines};
ghost use Rattle.claims.specs.Impostors.{ImpostorsClaim, TrappedIsNeeded};
ghost use Rattle.claims.specs.Lease.{LeaseClaim};
ghost use Rattle.claims.specs.LeaseExample.{LeaseExample};
ghost use Rattle.claims.specs.Syndromes.{SyndromesAndWords};

// It does nothing. Each claim is a line of its promise, since a theorem that no function needs can be taken out unseen.
pub fn every_claim_holds()
    ensures readings_hold { ReadingsHold }
    ensures masks_hold { MasksHold }
    ensures refusals_move_nothing { RefusalsMoveNothing }
    ensures record_refusals_move_nothing { RecordRefusalsMoveNothing }
    ensures run_refusals_move_nothing { RunRefusalsMoveNothing }
    ensures reads_move_nothing { ReadsMoveNothing }
    ensures each_answer { EachAnswer }
    ensures each_record { EachRecord }
    ensures each_run { EachRun }
    ensures five_exactly_when { FiveExactlyWhen }
    ensures no_write_makes_five { NoWriteMakesFive }
    ensures ten_exactly_when { TenExactlyWhen }
    ensures who_reaches_controls { WhoReachesControls }
    ensures who_sees_cntpoff { WhoSeesCntpoff }
    ensures writes_change_one { WritesChangeOne }
    ensures reads_give { ReadsGive }
    ensures done_is_permitted { DoneIsPermitted }
    ensures timer_reads_back { TimerReadsBack }
    ensures tval_reads_back { TvalReadsBack }
    ensures left_as_written { LeftAsWritten }
    ensures enabled_afterwards { EnabledAfterwards }
    ensures read_follows_write { ReadFollowsWrite }
    ensures controls_read_back { ControlsReadBack }
    ensures written_bits_rule { WrittenBitsRule }
    ensures kernel_example { KernelExample }
    ensures guest_claim { GuestClaim }
    ensures journal_claim { JournalClaim }
    ensures two_machines { TwoMachines }
    ensures trapped_is_needed { TrappedIsNeeded }
    ensures impostors_claim { ImpostorsClaim }
    ensures lease_claim { LeaseClaim }
    ensures lease_example { LeaseExample }
    ensures syndromes_and_words { SyndromesAndWords }
{}
