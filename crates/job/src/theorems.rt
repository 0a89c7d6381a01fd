//! What a job can be.
ghost use Rattle.job.specs.Theorems.{JobsHaveOneCut, CutJobsHaveAMark};

/// A job is cut in one way, and one that is cut has a line that ends its source.
pub fn jobs_have_one_cut()
    ensures one { JobsHaveOneCut }
    ensures marked { CutJobsHaveAMark }
{}
