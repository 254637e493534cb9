//! A validator: a test, and where the schema object stands that asks it.

use crate::checks::Checks;
use crate::findings::Found;
use crate::parts::{Origin, Parts};
use crate::test::Test;
use crate::validate::{Uses, Validate};
use std::alloc::Global;
use strkw_report::{Node, TextNode};

/// A validator: a test of texts, and where the schema object stands that asks it. It demands and notes what the test
/// does. Each of the seventeen validators is one, and its calls are those of `Uses` and `Validate`.
#[derive(Drop)]
pub struct Keyed<T> {
    pub(crate) origin: Origin,
    pub(crate) test: T,
}

impl<T: Test> Uses for Keyed<T> {
    ghost place = { λ v. v.origin };

    ghost demands = { λ v. T.demands v.test };

    ghost remark = { λ v. T.remark v.test v.origin.schema };

    fn parts(&self) -> Parts<'_> {
        self.test.parts(&self.origin)
    }
}

impl<T: Test, N: Node> Validate<N> for Keyed<T> {
    fn findings(&self, alloc: Global, text: &TextNode<'_, N>, checks: &Checks) -> Found<'_> {
        self.test.findings(alloc, text, checks)
    }
}
