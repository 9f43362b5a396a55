//! What holds of each picture.
ghost use Rattle.entangled_picture.specs.ByStamps.{ColumnsGoByStamps};
ghost use Rattle.entangled_picture.specs.OneMark.{EachHasOneMark};

/// Of two survivors that are drawn one is further right if and only if its stamp is greater.
pub fn columns_go_by_stamps()
    ensures { ColumnsGoByStamps }
{}

/// Up to the number of survivors that are drawn, the marks of a picture stand for its report's
/// survivors, gaps, strays, refused records, breaks and damaged ends, each once.
pub fn each_finding_has_one_mark()
    ensures { EachHasOneMark }
{}
