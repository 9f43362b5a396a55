//! Laws of rules and their texts, which follow from the definitions. Each is the contract of a
//! function that does nothing.
ghost use Rattle.std.specs.Prelude.{◌≡◌, ◌↔◌, ℕ, IsTrue, List, Result, Ok};
ghost use Rattle.rule_language.specs.Trees.{RuleTree};
ghost use Rattle.rule_language.specs.Lawful.{are_rules};
ghost use Rattle.rule_language.specs.Spelling.{IsTextOf};
ghost use Rattle.rule_language.specs.Written.{rules_text};
ghost use Rattle.rule_language.specs.Reading.{Reads};
ghost use Rattle.rule_language.specs.declared.faults.RuleFault.{RuleFault};

/// A text is read as rules exactly if these are lawful and it spells them.
pub fn texts_of_rules_are_read()
    ensures { (text : List ℕ) (rules : List RuleTree) → Reads text (Ok rules) ↔ IsTextOf text rules }
{}

/// Of the answers to a text at most one is right.
pub fn one_reading_is_right()
    ensures { (text : List ℕ) (answer other : Result (List RuleTree) RuleFault) →
        Reads text answer → Reads text other → answer ≡ other }
{}

/// What is written of lawful rules is a text of them, and so it is read back as the same rules.
#[tactic(auto, using(crate::proofs::WrittenTexts::written_is_text, crate::proofs::RulesRead::text_back))]
pub fn written_rules_are_read_back()
    ensures text { (rules : List RuleTree) → IsTrue (are_rules rules)
        → IsTextOf (rules_text rules) rules }
    ensures back { (rules : List RuleTree) → IsTrue (are_rules rules)
        → Reads (rules_text rules) (Ok rules) }
{}
