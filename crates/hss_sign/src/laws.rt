//! The law of signing again and again, whichever calls are used. It is the contract of a function
//! that does nothing.
ghost use Rattle.hss_sign.specs.Signings.{LeavesSignOnce, NoneAfterTheLast};
ghost use Rattle.hss_sign.specs.Signings.{NumbersRiseByOne, SpentExactlyAfterTheLast};

/// Over any calls of `HssSecret::sign` and `HssSecret::sign_by` on one key, in any mixture, the
/// numbers of the signatures rise by one, so no leaf of a low tree signs twice. After the last
/// number every call answers `Spent`, and none before it does.
pub fn numbers_rise_by_one()
    ensures numbers { NumbersRiseByOne }
    ensures once { LeavesSignOnce }
    ensures spent { SpentExactlyAfterTheLast }
    ensures last { NoneAfterTheLast }
{}
