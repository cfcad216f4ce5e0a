//! Features, owned and lent, and their texts.

ghost use Rattle.std.specs.Prelude.{◌≡◌};
ghost use Rattle.at_query.specs.Holding.{lent_feature};

use at_geom::Shape;
use at_lex::Units;
use std::marker::Model;

/// A text of a feature, as it is after unescaping, with its name.
#[derive(Drop)]
pub struct TextPair {
    pub name: Units,
    pub value: Units,
}

/// A list of texts with their names.
#[derive(Drop)]
pub struct TextPairs {
    items: Vec<TextPair>,
}

impl Model for TextPairs {
    ghost use Rattle.std.specs.Prelude.{List};
    ghost use Rattle.at_query.specs.declared.features.TextPair.{TextPair};

    ghost Value = { List TextPair };

    ghost view = { λ t. t.items.items };
}

impl TextPairs {
    /// The list that a `Vec` holds. It takes no memory.
    pub fn from_vec(items: Vec<TextPair>) -> Self
        ensures { result ≡ items.items }
    {
        TextPairs { items }
    }

    /// The list as a slice.
    pub fn as_slice(&self) -> &[TextPair]
        ensures { result.now ≡ self.now }
    {
        self.items.as_slice()
    }
}

/// A feature: the offset in its file at which it begins, what it covers, and its texts (RFC 7946 section 3.2).
#[derive(Drop)]
pub struct Feature {
    pub at: u32,
    pub shape: Shape,
    pub texts: TextPairs,
}

impl Feature {
    /// Lends the parts of the feature.
    pub fn lent(&self) -> LentFeature<'_>
        ensures { lent_feature result ≡ self.now }
    {
        LentFeature {
            at: self.at,
            shape: &self.shape,
            texts: &self.texts,
        }
    }
}

/// A feature whose shape and texts are lent.
#[derive(Clone, Copy)]
pub struct LentFeature<'a> {
    pub at: u32,
    pub shape: &'a Shape,
    pub texts: &'a TextPairs,
}
