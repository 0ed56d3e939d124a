// What may be in key order, and its least parts.
ghost use Rattle.std.specs.Prelude.{IfSome};
ghost use Rattle.rg_json.specs.Own.{IsInteger, IsText, OwnOption};

use rg_base::Text;

/// A value that may be in key order.
pub(crate) trait Ordered {
    /// It is in key order.
    ghost in_order: { Self → Type 0 };

    /// None where it isn't in key order.
    fn check(&self) -> Option<()>
        ensures { IfSome result (λ u. in_order self.now) };
}

impl Ordered for Text {
    ghost in_order = { IsText };

    fn check(&self) -> Option<()> {
        let _spelled = self.as_str();
        Some(())
    }
}

impl Ordered for i64 {
    ghost in_order = { IsInteger };

    fn check(&self) -> Option<()> {
        let _number = *self;
        Some(())
    }
}

impl<T: Ordered> Ordered for Option<T> {
    ghost in_order = { OwnOption T.in_order };

    fn check(&self) -> Option<()> {
        match self {
            None => Some(()),
            Some(value) => value.check(),
        }
    }
}
