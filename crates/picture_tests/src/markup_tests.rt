//! Markup, with the references that "Extensible Markup Language 1.0" has for its five characters in
//! 4.1 and 4.6.
use page_markup::{AttributeName, Attributes, Markup, Tag};
use std::test::Fail;

#[test]
fn text_in_an_element_is_escaped(rt: HostRuntime) -> Result<(), Fail> {
    let alloc = rt.alloc();
    let mut attributes = Attributes::new(alloc);
    attributes.add(alloc, AttributeName::Id, b"1>0 \"")?;
    let mut inner = Markup::new(alloc);
    inner.add_text(alloc, b"<i> & don't\x07")?;
    let mut out = Markup::new(alloc);
    out.add_element(alloc, Tag::P, &attributes, &inner)?;
    let want = b"<p id=\"1&gt;0 &quot;\">&lt;i&gt; &amp; don&#39;t?</p>";
    assert_eq!(rt; out.as_slice(), want.as_slice());
    Ok(())
}
