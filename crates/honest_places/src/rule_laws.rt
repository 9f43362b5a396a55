//! The laws of honest polling places. Each is the contract of a function with an empty body.

ghost use Rattle.honest_places.specs.Honest.{HonestyIsOfHistories};
ghost use Rattle.honest_places.specs.RulesKept.{
  HonestAuditsNeverSayBroken,
  HonestAuditsSayKept,
  HonestEntriesHaveNoEarlyEnd,
  HonestEntriesKeepTheRules,
  StandardRulesAreNarrow,
};
ghost use Rattle.honest_places.specs.PlacesOfScripts.{
  MachinesAreHonest,
  ScriptsAreKept,
  ScriptsAreNeverBroken,
  ScriptsAreNeverTooWide,
  ScriptsHaveNoEarlyEnd,
  ScriptsKeepTheRules,
  ScriptsLeadToHonestPlaces,
};

/// Of any entries that an honest polling place sent each standard rule holds, whichever others were
/// lost.
#[tactic(auto, using(crate::proofs::Rules::honest_entries_keep_the_rules))]
pub fn honest_entries_keep_the_rules()
    ensures { HonestEntriesKeepTheRules }
{}

/// What is known of such entries by themselves never says that a standard rule is broken, and where
/// all entries are given it says that each is kept.
#[tactic(auto, using(crate::proofs::RuleAudits::rules_known))]
pub fn honest_audits_say_kept()
    ensures never_broken { HonestAuditsNeverSayBroken }
    ensures kept { HonestAuditsSayKept }
{}

/// Where an honest place sent at most 4,096 entries, no standard rule is too wide over any of them:
/// a rule has at most two quantifiers in one another, and the one with three goes over closings, of
/// which there is at most one.
#[tactic(auto, using(crate::proofs::RuleAudits::standard_rules_are_narrow))]
pub fn standard_rules_are_narrow()
    ensures { StandardRulesAreNarrow }
{}

/// Of any entries that an honest polling place sent no cast, cancellation or challenge of a session
/// precedes an authorising of it: a booth ends what it was authorised for, and the supervisor
/// authorises each session once. So what survives of them tells all that can be said of P3, too.
pub fn honest_entries_have_no_early_end()
    ensures { HonestEntriesHaveNoEarlyEnd }
{}

/// Whether a place is honest depends on its histories alone, and not on what has stopped.
pub fn honesty_is_of_histories()
    ensures { HonestyIsOfHistories }
{}

/// The machines of a script, of either version, are an honest polling place after any steps, and so
/// the laws hold of what they sent: of the script's own steps, and of the order in which the events
/// of threads merge. So are any of its machines that could send what they sent when they did.
#[tactic(auto, using(crate::proofs::RuleScripts::machines_are_honest))]
pub fn scripts_lead_to_honest_places()
    ensures honest { ScriptsLeadToHonestPlaces }
    ensures machines { MachinesAreHonest }
    ensures rules { ScriptsKeepTheRules }
    ensures never_broken { ScriptsAreNeverBroken }
    ensures kept { ScriptsAreKept }
    // A script has at most 4,096 actions, so no more entries are sent.
    ensures never_too_wide { ScriptsAreNeverTooWide }
    ensures no_early_end { ScriptsHaveNoEarlyEnd }
{}
