//! What follows from the definitions. The functions do nothing: their contracts are the laws.

ghost use Rattle.shape.specs.declared.whole.Shape.{Shape as TheShape};
ghost use Rattle.open_table.specs.Open.{OpenState};
ghost use Rattle.work_area.specs.Areas.{StoreState};
ghost use Rattle.work_area.specs.Shapes.{AreFound, StoreHasShape, KindsStay, ShapesStay};

/// Each change of a table in use leaves its fields and its indexes, stale or not.
pub fn tables_keep_their_kind()
    ensures { (o : OpenState) → KindsStay o }
{}

/// A store keeps its shape through each change: tables that hold what is declared, and have the declared indexes.
pub fn stores_keep_their_shape()
    ensures { (shape : TheShape) (s : StoreState) → ShapesStay shape s }
{}

/// In a store of a shape each declared index is found in its own table, under its declared key: the length of its keys,
/// and the text that says how they are made.
pub fn indexes_have_their_declared_keys()
    ensures { (shape : TheShape) (s : StoreState) → StoreHasShape shape s → AreFound shape s }
{}
