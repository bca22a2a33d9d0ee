//! Laws of the machine, each a function that does nothing and whose clause is the law.

ghost use Rattle.std.specs.Prelude.{List};
ghost use Rattle.sql_tree.specs.declared.condition.Operand.{Operand};
ghost use Rattle.table_machine.specs.declared.table.ColumnDef.{ColumnDef};
ghost use Rattle.table_machine.specs.Machine.{Cells};
ghost use Rattle.table_machine.specs.Carry.{WhereCarried, SortCarried, SelectCarried, CountCarried, InsertCarried, UpdateCarried, DeleteCarried};

/// What a statement does to mapped rows is the map of what it does to the rows.
pub fn cells_are_carried<C, D>()
    ensures kept { (cells : Cells C) (others : Cells D) (f : C → D) (g : Operand → Operand) (columns : List ColumnDef) → WhereCarried cells others f g columns }
    ensures sorted { (cells : Cells C) (others : Cells D) (f : C → D) (g : Operand → Operand) (columns : List ColumnDef) → SortCarried cells others f g columns }
    ensures selected { (cells : Cells C) (others : Cells D) (f : C → D) (g : Operand → Operand) (columns : List ColumnDef) → SelectCarried cells others f g columns }
    ensures counted { (cells : Cells C) (others : Cells D) (f : C → D) (g : Operand → Operand) (columns : List ColumnDef) → CountCarried cells others f g columns }
    ensures inserted { (cells : Cells C) (others : Cells D) (f : C → D) (g : Operand → Operand) (columns : List ColumnDef) → InsertCarried cells others f g columns }
    ensures updated { (cells : Cells C) (others : Cells D) (f : C → D) (g : Operand → Operand) (columns : List ColumnDef) → UpdateCarried cells others f g columns }
    ensures deleted { (cells : Cells C) (others : Cells D) (f : C → D) (g : Operand → Operand) (columns : List ColumnDef) → DeleteCarried cells others f g columns }
{}
