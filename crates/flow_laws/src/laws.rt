//! Laws of the definitions, which say nothing of code.

ghost use Rattle.flow_laws.specs.Laws.{
  CleanAreDone,
  FedAreJobs,
  FedAreJournals,
  FedByMany,
  FedByOne,
  JobsAreAnswered,
  JobsDiffer,
  JournalsGrow,
  LongerRows,
  LongerTables,
  Schedules,
  TooManyStay,
};

/// Over a table that gives each answer of another one, each name that is known stays known with its
/// value, each call that has ended stays ended, each job and each fault stays, and there are no
/// fewer jobs and statements. A flow that is clean stays as it is, and one that is too many stays
/// too many.
pub fn longer_tables()
    ensures tables { LongerTables }
    ensures rows { LongerRows }
    ensures too_many { TooManyStay }
{}

/// No two jobs of a flow have one place and attempt. Each job has an answer or its place waits, and
/// each place that waits is that of a job without an answer.
pub fn jobs_differ()
    ensures differ { JobsDiffer }
    ensures answered { JobsAreAnswered }
{}

/// As a journal grows, its flow gives no less. So an entry more for a job that has none, and
/// entries for any of the jobs that have none, leave a fed journal fed; all its requests are jobs
/// of its flow, and their places and attempts differ. Where that flow is clean, its jobs are the
/// requests of the entries.
pub fn journals_grow()
    ensures grow { JournalsGrow }
    ensures one { FedByOne }
    ensures many { FedByMany }
    ensures jobs { FedAreJobs }
    ensures differ { FedAreJournals }
    ensures done { CleanAreDone }
{}

/// Over two fed journals in which equal requests have equal answers, where the flow over the first
/// one is clean, that over the second one has no fault; and where both are clean, they are equal.
pub fn schedules()
    ensures law { Schedules }
{}
