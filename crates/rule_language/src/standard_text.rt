//! The standard rules.
ghost use Rattle.std.specs.Prelude.{◌≡◌, map, IfOk, IsTrue};
ghost use Rattle.rule_language.specs.Lawful.{are_rules};
ghost use Rattle.rule_language.specs.Written.{rules_text};
ghost use Rattle.rule_language.specs.Forms.{rule_tree};
ghost use Rattle.rule_language.specs.Standard.{standard_rules};

use crate::faults::RuleFault;
use crate::formula::Rule;
use crate::rules::read;
use crate::writing::Memory;
use std::alloc::{AllocError, Global};

/// Their text: a rule on a line.
pub const STANDARD: &str = "\
(rule O1 (every x opened (every y opened (same x y))))
(rule O2 (every x authorise (some y opened before x true)))
(rule A1 (every x activate (some y authorise before x (and (= y.session x.session) (= y.booth x.maker)))))
(rule A2 (every x authorise (every y authorise (implies (= x.session y.session) (same x y)))))
(rule C1 (every x commit (some y activate before x (and (= y.maker x.maker) (= y.session x.session)))))
(rule C2 (every x cast (some y commit before x (and (= y.maker x.maker) (= y.session x.session) (= y.ballot x.ballot)))))
(rule C3 (every x cast (every y cast (implies (= x.session y.session) (same x y)))))
(rule C4 (every x cast (and (every y cancel (not (= x.session y.session))) (every z challenge (not (= x.session z.session))))))
(rule C5 (every x cancel (some y authorise before x (and (= y.session x.session) (= y.booth x.maker)))))
(rule V1 (every x override (some y authorise before x (= y.session x.session))))
(rule V2 (every x cast (not (some y override before x (= y.session x.session)))))
(rule P1 (every x closed (every y closed (same x y))))
(rule P2 (every x authorise (not (some y closed before x true))))
(rule P3 (every x authorise (every y closed (implies (before x y) (or (some z cast before y (= z.session x.session)) (some z cancel before y (= z.session x.session)) (some z challenge before y (= z.session x.session)))))))
(rule P4 (every x cast (not (some y closed before x true))))
(rule M1 (every x entry (or (and (is x supervisor) (or (kind x opened) (kind x authorise) (kind x override) (kind x forced) (kind x closed))) (and (is x booth) (or (kind x activate) (kind x commit) (kind x cast) (kind x cancel) (kind x challenge))))))
(rule K1 (every x entry (every y entry (implies (and (= x.maker y.maker) (= x.number y.number)) (same x y)))))
(rule K2 (every x entry (or (= x.number 0) (some y entry before x (next y x)))))
(rule C6 (every x challenge (some y commit before x (and (= y.maker x.maker) (= y.session x.session) (= y.ballot x.ballot)))))
(rule C7 (every x challenge (and (every y challenge (implies (= x.session y.session) (same x y))) (every z cancel (not (= x.session z.session))))))
(rule V3 (every x challenge (and (not (some y override before x (= y.session x.session))) (not (some z forced before x (= z.session x.session))))))
(rule V4 (every x forced (and (some y authorise before x (= y.session x.session)) (some z commit before x (= z.session x.session)))))
";

/// The standard rules. They hold of every honest election, whatever is lost.
///
/// # Errors
///
/// Out of memory.
#[tactic(auto, using(crate::proofs::StandardText::standard_read))]
pub fn standard(alloc: Global) -> Result<Vec<Rule>, Memory>
    ensures { IfOk result (λ rules. map rule_tree rules.items ≡ standard_rules) }
{
    match read(alloc, STANDARD.as_bytes()) {
        Ok(rules) => Ok(rules),
        Err(RuleFault::At { .. }) => unreachable!(),
        Err(RuleFault::Memory) => Err(AllocError),
    }
}

/// A law of the definitions: the standard rules are rules, and what is written of them is their
/// text, byte for byte.
#[tactic(auto, using(crate::proofs::StandardText::standard_written))]
pub fn the_standard_text_is_written()
    ensures rules { IsTrue (are_rules standard_rules) }
    ensures text { rules_text standard_rules ≡ STANDARD.now }
{}
