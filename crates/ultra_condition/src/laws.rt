//! What conditions depend on.

ghost use Rattle.ultra_condition.specs.Naming.{SumAgreementLaw, AgreementLaw, CellsLaw};

/// A condition and a sum depend on the cells, on the place and the activity of each processing
/// element and on the registers that they name, as this function's contract; a condition of cells
/// alone depends on the cells. The function itself does nothing.
pub fn agreement_law()
    ensures conditions { AgreementLaw }
    ensures sums { SumAgreementLaw }
    ensures of_cells { CellsLaw }
{}
