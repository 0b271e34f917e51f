ghost use Rattle.std.specs.Prelude.{◌≡◌, ℕ, List, [], ◌∷◌, ◌++◌, Some, filter, Bool, true, false};
ghost use Rattle.std.specs.List.{Contains, list_any};
ghost use Rattle.mat_path.specs.Covering.{is_other_path};
ghost use Rattle.mat_path.specs.Names.{overlap, same_names};
ghost use Rattle.mat_tree.specs.Parts.{Part, replaced, without};
ghost use Rattle.mat_model.specs.declared.book.Row.{Row};
ghost use Rattle.mat_model.specs.WorkState.{Job, Lent, WorkState, is_lent, is_other_job, running};
ghost use Rattle.model_laws.specs.StoredRules.{path_of_job};
ghost use Rattle.model_laws.specs.WorkRules.{IsWork, loans, loans_of};
ghost use Rattle.region_port.specs.Calls.{Paths, paths_below, paths_of_both, paths_outside};
ghost use Rattle.core_laws.specs.Loans.{AreLoans, AreLoansApart, AreOut, given_back};

/// Where no job runs and nothing is lent, the loans are alike.
pub fn nothing_is_lent()
    ensures { AreLoans [] [] }
{}

/// A begin keeps the loans: what its job takes is lent.
pub fn begin_keeps_loans()
    ensures { (jobs : List Job) (job : Job) (lent : List (List (List ℕ))) → AreLoans jobs lent →
        AreLoans (jobs ++ job ∷ []) (lent ++ loans_of job) }
{}

/// The end of a job keeps them, once its loans are given back.
pub fn end_keeps_loans()
    ensures { (next number : ℕ) (rows : List Row) (work : WorkState) (job : Job) (lent : List (List (List ℕ))) → IsWork next rows work →
        running number work ≡ Some job → AreLoans work.jobs lent →
        AreLoans (filter (is_other_job number) work.jobs) (given_back (loans_of job) lent) }
{}

/// A path that no job's loan overlaps may be taken.
pub fn free_path_is_not_lent()
    ensures { (jobs : List Job) (lent : List (List (List ℕ))) (path : List (List ℕ)) → AreLoans jobs lent → is_lent path jobs ≡ false →
        list_any (overlap path) lent ≡ false }
{}

/// A loan of a job may be given back.
pub fn loan_is_lent()
    ensures { (jobs : List Job) (lent : List (List (List ℕ))) (job : Job) (loan : List (List ℕ)) → AreLoans jobs lent →
        Contains jobs job → Contains (loans_of job) loan → list_any (same_names loan) lent ≡ true }
{}

/// So may the part that a job reads, once its task's part is given back.
pub fn read_part_is_still_lent()
    ensures { (next : ℕ) (rows : List Row) (work : WorkState) (lent : List (List (List ℕ))) (job : Job) (part : Lent) →
        IsWork next rows work → AreLoans work.jobs lent → Contains work.jobs job → job.lent ≡ Some part →
        list_any (same_names part.path) (filter (is_other_path (path_of_job job)) lent) ≡ true }
{}

/// The disk's loans are apart.
pub fn loans_lie_apart()
    ensures { (next : ℕ) (rows : List Row) (work : WorkState) (lent : List (List (List ℕ))) → IsWork next rows work →
        AreLoans work.jobs lent → AreLoansApart lent }
{}

/// So are those that are left, where some are given back.
pub fn fewer_loans_are_apart()
    ensures { (test : List (List ℕ) → Bool) (lent : List (List (List ℕ))) → AreLoansApart lent → AreLoansApart (filter test lent) }
{}

/// The disk has nothing at or below a loan of a job, where it has nothing at or below what it lends.
pub fn loans_are_out()
    ensures { (jobs : List Job) (lent : List (List (List ℕ))) (content : Part) (rough : Paths) → AreLoans jobs lent →
        AreOut lent content rough → AreOut (loans jobs) content rough }
{}

/// A take leaves the disk with nothing at or below a loan.
pub fn take_keeps_out()
    ensures { (lent : List (List (List ℕ))) (taken : List (List ℕ)) (content : Part) (rough : Paths) → AreOut lent content rough →
        AreOut (lent ++ taken ∷ []) (without taken content) (paths_outside taken rough) }
{}

/// So does a give at a loan, whatever its part has become, where the loans are apart.
pub fn give_keeps_out()
    ensures { (lent : List (List (List ℕ))) (given : List (List ℕ)) (inner content : Part) (its rough : Paths) → AreLoansApart lent →
        Contains lent given → AreOut lent content rough →
        AreOut (filter (is_other_path given) lent) (replaced given inner content) (paths_of_both rough (paths_below given its)) }
{}
