//! What the steps of a command are that come to an end.

ghost use Rattle.std.specs.Prelude.{◌≡◌, List};
ghost use Rattle.dn_model.specs.Cases.{Heading, IsHeading, Recording, IsRecording};
ghost use Rattle.dn_world.specs.declared.step.Step.{Step};
ghost use Rattle.dn_drive.specs.declared.ended.Ended.TheVariants.{Cut, Whole};
ghost use Rattle.dn_top.specs.declared.words.Schedule.{Schedule};
ghost use Rattle.dn_top.specs.Promises.{EndsCut, EndsWhole, IsCutOnTheWay, outcome_of, steps_of};
ghost use Rattle.dn_top.specs.Drives.{AreOneJournal};

use guest_any::AnyGuest;

/// Steps of a case that come to the end or to the cut are a legal run that ends so, and each step of a schedule
/// is taken. Lines are the journal of one list of steps.
pub(crate) fn ends()
    ensures whole { (c : Recording) (steps : List Step) → IsRecording c → outcome_of c steps ≡ Whole
        → EndsWhole c steps }
    ensures cut { (c : Recording) (steps : List Step) → outcome_of c steps ≡ Cut → IsCutOnTheWay c steps }
    ensures schedule { (c : Recording) (schedule : Schedule) → IsRecording c
        → outcome_of c (steps_of c schedule) ≡ Cut → EndsCut c (steps_of c schedule) }
    ensures journal { (h : Heading) → IsHeading h → AreOneJournal h }
{
    dn_model::laws::cases_are_timed::<AnyGuest>();
    dn_drive::laws::whole_journals::<AnyGuest>();
    dn_drive::laws::taken_steps::<AnyGuest>();
    dn_drive::laws::schedules_are_taken::<AnyGuest>();
    dn_journal::laws::a_text_has_one_journal();
}
