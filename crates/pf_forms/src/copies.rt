ghost use Rattle.std.specs.Prelude.{◌≡◌, IfOk};
ghost use Rattle.pf_forms.specs.Meaning.Shapes.{shape};

use crate::form::Form;
use std::alloc::{AllocError, Global};

impl Form {
    /// An equal form.
    #[cycle(copying)]
    pub fn copy(&self, alloc: Global) -> Result<Form, AllocError>
        ensures { IfOk result (λ f. shape f ≡ shape self.now) }
    {
        match self {
            Form::Var(n) => Ok(Form::Var(*n)),
            Form::Num(n) => Ok(Form::Num(*n)),
            Form::Pow(e) => Ok(Form::Pow(*e)),
            Form::Add(x, y) => Ok(Form::Add(boxed(alloc, x)?, boxed(alloc, y)?)),
            Form::Sub(x, y) => Ok(Form::Sub(boxed(alloc, x)?, boxed(alloc, y)?)),
            Form::Mul(x, y) => Ok(Form::Mul(boxed(alloc, x)?, boxed(alloc, y)?)),
            Form::FloorDiv(x, e) => Ok(Form::FloorDiv(boxed(alloc, x)?, *e)),
            Form::Min(x, y) => Ok(Form::Min(boxed(alloc, x)?, boxed(alloc, y)?)),
            Form::Max(x, y) => Ok(Form::Max(boxed(alloc, x)?, boxed(alloc, y)?)),
            Form::Abs(x) => Ok(Form::Abs(boxed(alloc, x)?)),
            Form::Sel(a, b, x, y) => Ok(Form::Sel(
                boxed(alloc, a)?,
                boxed(alloc, b)?,
                boxed(alloc, x)?,
                boxed(alloc, y)?,
            )),
            Form::Wrap(t, x) => Ok(Form::Wrap(*t, boxed(alloc, x)?)),
            Form::Sat(t, x) => Ok(Form::Sat(*t, boxed(alloc, x)?)),
        }
    }
}

/// An equal form, boxed.
#[cycle(copying)]
fn boxed(alloc: Global, form: &Form) -> Result<Box<Form>, AllocError>
    ensures { IfOk result (λ b. shape b.value ≡ shape form.now) }
{
    Ok(Box::new(alloc, form.copy(alloc)?)?)
}
