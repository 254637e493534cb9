//! Nodes that are texts: a plain text, and a node together with the text that it is.

ghost use Rattle.std.specs.Prelude.{◌≡◌, length, option_map};
ghost use Rattle.std.specs.Str.{chars};

use crate::node::{Node, char_count};
use std::marker::Model;

/// A text is an instance that is itself.
impl<'a> Node for &'a str {
    ghost use Rattle.std.specs.Prelude.{Some};

    ghost text = { λ s. Some s.now };

    fn as_text(&self) -> Option<&str> {
        Some(*self)
    }

    fn text_length(&self) -> Option<u64> {
        Some(char_count(*self))
    }
}

/// A text, or `None` for an instance that is none.
impl<'a> Node for Option<&'a str> {
    ghost text = { λ o. option_map (λ s. s.now) o };

    fn as_text(&self) -> Option<&str> {
        *self
    }

    fn text_length(&self) -> Option<u64> {
        match *self {
            Some(text) => Some(char_count(text)),
            None => None,
        }
    }
}

/// A node that is a text, asked for it once. Contracts see it as its text.
#[derive(Drop)]
pub struct TextNode<'a, N: Node> {
    node: &'a N,
    text: &'a str,
}

impl<'a, N: Node> Model for TextNode<'a, N> {
    ghost use Rattle.std.specs.Prelude.{◌≡◌, ℕ, List, Some};

    ghost Value = { List ℕ };

    ghost view = { λ t. t.text.now };

    ghost invariant = { λ t. N.text t.node.now ≡ Some t.text.now };
}

impl<'a, N: Node> TextNode<'a, N> {
    /// The node with its text, or `None` where it is no text.
    pub fn of(node: &'a N) -> Option<TextNode<'a, N>>
        ensures { option_map (λ t. t) result ≡ N.text node.now }
    {
        let text = node.as_text()?;
        Some(TextNode { node, text })
    }

    /// The text.
    pub fn as_str(&self) -> &str
        ensures { result.now ≡ self.now }
    {
        self.text
    }

    /// The number of the text's characters (Unicode scalar values), as the node answers it.
    pub fn length(&self) -> u64
        ensures { result ≡ length (chars self.now) }
    {
        self.node.text_length().unwrap_or(0)
    }
}
