//! How scalars and views are printed.

ghost use Rattle.vortex_scalar.specs.Printed.{Prints};

use super::binary::BinaryScalar;
use super::bool::BoolScalar;
use super::decimal::DecimalScalar;
use super::extension::ExtScalar;
use super::fitting::Fitting;
use super::list::ListScalar;
use super::primitive::PrimitiveScalar;
use super::struct_::StructScalar;
use super::utf8::Utf8Scalar;
use crate::scalar::Scalar;
use std::fmt;
use vortex_scalar_text::write_scalar;

impl<'a> Fitting<'a> {
    /// Writes the scalar.
    fn print<W: fmt::Write>(&self, f: &mut fmt::Formatter<W>) -> fmt::Result
        ensures { Prints W.write_str_gives f.old result self.now f.new }
    {
        write_scalar(self.dtype().type_ref(), self.value(), f)
    }
}

impl fmt::Display for Scalar {
    fn fmt<W: fmt::Write>(&self, f: &mut fmt::Formatter<W>) -> fmt::Result
        ensures { Prints W.write_str_gives f.old result self.now f.new }
    {
        self.fitting().print(f)
    }
}

impl<'a> fmt::Display for BoolScalar<'a> {
    ghost use Rattle.vortex_scalar.specs.Views.{bool_term};

    fn fmt<W: fmt::Write>(&self, f: &mut fmt::Formatter<W>) -> fmt::Result
        ensures { Prints W.write_str_gives f.old result (bool_term self.now) f.new }
    {
        let scalar = self.into_scalar();
        scalar.fitting().print(f)
    }
}

impl<'a> fmt::Display for PrimitiveScalar<'a> {
    ghost use Rattle.vortex_scalar.specs.Views.{primitive_term};

    fn fmt<W: fmt::Write>(&self, f: &mut fmt::Formatter<W>) -> fmt::Result
        ensures { Prints W.write_str_gives f.old result (primitive_term self.now) f.new }
    {
        let scalar = self.into_scalar();
        scalar.fitting().print(f)
    }
}

impl<'a> fmt::Display for DecimalScalar<'a> {
    ghost use Rattle.std.specs.Fmt.{WritesOnOk};
    ghost use Rattle.vortex_scalar_text.specs.ScalarText.{scalar_text};
    ghost use Rattle.vortex_scalar.specs.Views.{decimal_term, decimal_kept};

    fn fmt<W: fmt::Write>(&self, f: &mut fmt::Formatter<W>) -> fmt::Result
        ensures prints { Prints W.write_str_gives f.old result (decimal_term self.now) f.new }
        ensures text { let text = scalar_text (decimal_term self.now).dtype
            (decimal_kept self.now) in
            WritesOnOk W.write_str_gives f.old result text f.new }
    {
        let value = self.kept();
        write_scalar(self.dtype().type_ref(), &value, f)
    }
}

impl<'a> fmt::Display for Utf8Scalar<'a> {
    ghost use Rattle.vortex_scalar.specs.TextViews.{utf8_term};

    fn fmt<W: fmt::Write>(&self, f: &mut fmt::Formatter<W>) -> fmt::Result
        ensures { Prints W.write_str_gives f.old result (utf8_term self.now) f.new }
    {
        self.held.fitting().print(f)
    }
}

impl<'a> fmt::Display for BinaryScalar<'a> {
    ghost use Rattle.vortex_scalar.specs.TextViews.{binary_term};

    fn fmt<W: fmt::Write>(&self, f: &mut fmt::Formatter<W>) -> fmt::Result
        ensures { Prints W.write_str_gives f.old result (binary_term self.now) f.new }
    {
        self.held.fitting().print(f)
    }
}

impl<'a> fmt::Display for ListScalar<'a> {
    fn fmt<W: fmt::Write>(&self, f: &mut fmt::Formatter<W>) -> fmt::Result
        ensures { Prints W.write_str_gives f.old result self.now f.new }
    {
        self.fitting.print(f)
    }
}

impl<'a> fmt::Display for StructScalar<'a> {
    fn fmt<W: fmt::Write>(&self, f: &mut fmt::Formatter<W>) -> fmt::Result
        ensures { Prints W.write_str_gives f.old result self.now f.new }
    {
        self.fitting.print(f)
    }
}

impl<'a> fmt::Display for ExtScalar<'a> {
    fn fmt<W: fmt::Write>(&self, f: &mut fmt::Formatter<W>) -> fmt::Result
        ensures { Prints W.write_str_gives f.old result self.now f.new }
    {
        self.fitting.print(f)
    }
}
