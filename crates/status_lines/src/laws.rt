//! Laws on small cases of the lines.

ghost use Rattle.std.specs.Prelude.{◌≡◌, codes};
ghost use Rattle.el_logic.specs.declared.types.Part.TheVariants as Part;
ghost use Rattle.el_logic.specs.declared.types.Side.TheVariants as Side;
ghost use Rattle.io_edge.specs.declared.outside.Role.TheVariants as Role;
ghost use Rattle.ofn_axiom.specs.declared.fault.DocKind.TheVariants as DocKind;
ghost use Rattle.ofn_heads.specs.declared.outside.HeadId.TheVariants.{ObjectPropertyRange};
ghost use Rattle.sssom_rows.specs.declared.column.Column.TheVariants as Column;
ghost use Rattle.sssom_rows.specs.declared.fault.TableFault.TheVariants as TableFault;
ghost use Rattle.case_load.specs.declared.fault.LimitKind.TheVariants as LimitKind;
ghost use Rattle.status_lines.specs.declared.status.Status.TheVariants as Status;
ghost use Rattle.status_lines.specs.Lines.{refusal_line, summary_text};

/// The lines of small cases, as a reader sees them.
pub fn lines_of_small_cases()
    ensures syntax { refusal_line
        (Status.Syntax Side.Left (record { line = 2; column = 14 }) DocKind.PrefixUnknown)
        ≡ codes "alod: LEFT:2:14: unknown prefix\n" }
    ensures profile { refusal_line
        (Status.Profile Side.Right (record { line = 1; column = 10 }) ObjectPropertyRange)
        ≡ codes "alod: RIGHT:1:10: not in the profile: ObjectPropertyRange\n" }
    ensures table { refusal_line (Status.Table (TableFault.Curie 3 Column.Object))
        ≡ codes "alod: MAP: row 3: object_id\n" }
    ensures limit { refusal_line (Status.Limit (LimitKind.Bytes Role.Map))
        ≡ codes "alod: limit: MAP bytes\n" }
    ensures incoherent { refusal_line (Status.Incoherent Part.Both (codes "http://l/A"))
        ≡ codes "alod: LEFT and RIGHT incoherent: <http://l/A>\n" }
    ensures summary { summary_text 3 2 1 0
        ≡ codes "alod: rows 3 kept 2 removed 1 inert 1 omitted 0\n" }
{}
