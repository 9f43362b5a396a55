//! The names of elements and attributes. Markup has no others, so no name comes from outside.
ghost use Rattle.std.specs.Prelude.{◌≡◌};
ghost use Rattle.page_markup.specs.Names.{attribute_name, tag_name, void_name};

/// An element with a start tag and an end tag: of a page (HTML, 4), or of a drawing (Scalable
/// Vector Graphics 1.1).
#[derive(Clone, Copy)]
pub enum Tag {
    Html,
    Head,
    Title,
    Style,
    Body,
    Header,
    Main,
    Footer,
    Nav,
    Section,
    H1,
    H2,
    H3,
    P,
    Ul,
    Ol,
    Li,
    Dl,
    Dt,
    Dd,
    Table,
    Caption,
    Thead,
    Tbody,
    Tr,
    Th,
    Td,
    A,
    Code,
    Pre,
    Strong,
    Em,
    Small,
    Span,
    Div,
    Figure,
    Figcaption,
    Details,
    Summary,
    Svg,
    G,
    Path,
    Circle,
    Rect,
    Line,
    Text,
    Tspan,
    Desc,
    Defs,
    Marker,
}

/// An element with nothing in it, and no end tag (HTML, 13.1.2, "void elements").
#[derive(Clone, Copy)]
pub enum VoidTag {
    Meta,
    Br,
    Wbr,
}

/// The name of an attribute.
#[derive(Clone, Copy)]
pub enum AttributeName {
    Id,
    Class,
    Href,
    Lang,
    Charset,
    Name,
    Content,
    Scope,
    Role,
    AriaLabel,
    AriaLabelledby,
    AriaHidden,
    Colspan,
    Tabindex,
    Xmlns,
    Width,
    Height,
    ViewBox,
    D,
    X,
    Y,
    Dx,
    Dy,
    Cx,
    Cy,
    R,
    Transform,
    MarkerUnits,
    MarkerWidth,
    MarkerHeight,
    RefX,
    RefY,
    Orient,
}

impl Tag {
    /// The name in texts.
    pub fn name(self) -> &'static [u8]
        ensures { result.now ≡ tag_name self }
    {
        match self {
            Tag::Html => b"html",
            Tag::Head => b"head",
            Tag::Title => b"title",
            Tag::Style => b"style",
            Tag::Body => b"body",
            Tag::Header => b"header",
            Tag::Main => b"main",
            Tag::Footer => b"footer",
            Tag::Nav => b"nav",
            Tag::Section => b"section",
            Tag::H1 => b"h1",
            Tag::H2 => b"h2",
            Tag::H3 => b"h3",
            Tag::P => b"p",
            Tag::Ul => b"ul",
            Tag::Ol => b"ol",
            Tag::Li => b"li",
            Tag::Dl => b"dl",
            Tag::Dt => b"dt",
            Tag::Dd => b"dd",
            Tag::Table => b"table",
            Tag::Caption => b"caption",
            Tag::Thead => b"thead",
            Tag::Tbody => b"tbody",
            Tag::Tr => b"tr",
            Tag::Th => b"th",
            Tag::Td => b"td",
            Tag::A => b"a",
            Tag::Code => b"code",
            Tag::Pre => b"pre",
            Tag::Strong => b"strong",
            Tag::Em => b"em",
            Tag::Small => b"small",
            Tag::Span => b"span",
            Tag::Div => b"div",
            Tag::Figure => b"figure",
            Tag::Figcaption => b"figcaption",
            Tag::Details => b"details",
            Tag::Summary => b"summary",
            Tag::Svg => b"svg",
            Tag::G => b"g",
            Tag::Path => b"path",
            Tag::Circle => b"circle",
            Tag::Rect => b"rect",
            Tag::Line => b"line",
            Tag::Text => b"text",
            Tag::Tspan => b"tspan",
            Tag::Desc => b"desc",
            Tag::Defs => b"defs",
            Tag::Marker => b"marker",
        }
    }
}

impl VoidTag {
    /// The name in texts.
    pub fn name(self) -> &'static [u8]
        ensures { result.now ≡ void_name self }
    {
        match self {
            VoidTag::Meta => b"meta",
            VoidTag::Br => b"br",
            VoidTag::Wbr => b"wbr",
        }
    }
}

impl AttributeName {
    /// The name in texts.
    pub fn name(self) -> &'static [u8]
        ensures { result.now ≡ attribute_name self }
    {
        match self {
            AttributeName::Id => b"id",
            AttributeName::Class => b"class",
            AttributeName::Href => b"href",
            AttributeName::Lang => b"lang",
            AttributeName::Charset => b"charset",
            AttributeName::Name => b"name",
            AttributeName::Content => b"content",
            AttributeName::Scope => b"scope",
            AttributeName::Role => b"role",
            AttributeName::AriaLabel => b"aria-label",
            AttributeName::AriaLabelledby => b"aria-labelledby",
            AttributeName::AriaHidden => b"aria-hidden",
            AttributeName::Colspan => b"colspan",
            AttributeName::Tabindex => b"tabindex",
            AttributeName::Xmlns => b"xmlns",
            AttributeName::Width => b"width",
            AttributeName::Height => b"height",
            AttributeName::ViewBox => b"viewBox",
            AttributeName::D => b"d",
            AttributeName::X => b"x",
            AttributeName::Y => b"y",
            AttributeName::Dx => b"dx",
            AttributeName::Dy => b"dy",
            AttributeName::Cx => b"cx",
            AttributeName::Cy => b"cy",
            AttributeName::R => b"r",
            AttributeName::Transform => b"transform",
            AttributeName::MarkerUnits => b"markerUnits",
            AttributeName::MarkerWidth => b"markerWidth",
            AttributeName::MarkerHeight => b"markerHeight",
            AttributeName::RefX => b"refX",
            AttributeName::RefY => b"refY",
            AttributeName::Orient => b"orient",
        }
    }
}
