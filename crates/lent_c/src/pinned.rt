// That every export is pinned down. It stands in a file of its own, since what a file with exports cites may not speak of contracts.
ghost use Rattle.lent_c.specs.OneExport.{EachExport};

// It does nothing, and C does not see it. The theorem is its promise.
pub fn every_export_is_pinned_down()
    ensures { EachExport }
{}
