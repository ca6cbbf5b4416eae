//! Documents with their readings and faults, as the format has them.

use el_logic::{Axiom, Expr};
use ofn_axiom::{DocFault, Document, Mode, Names, Omitted, read_document};
use std::alloc::{AllocError, Global};
use std::test::Fail;
use text_names::{Limits, NameTable, Place};

fn write_expr(alloc: Global, out: &mut String, expr: &Expr) -> Result<(), AllocError> {
    match expr {
        Expr::Top => out.push_str(" Top"),
        Expr::Bottom => out.push_str(" Bottom"),
        Expr::Name(class) => {
            let class = format!(in alloc; " c{class}")?;
            out.push_str(class.as_str())
        }
        Expr::And(parts) => {
            out.push_str(" and(")?;
            for part in parts.as_slice() {
                write_expr(alloc, out, part)?;
            }
            out.push_str(")")
        }
        Expr::Exists(role, filler) => {
            let role = format!(in alloc; " some(p{role}")?;
            out.push_str(role.as_str())?;
            write_expr(alloc, out, filler.get())?;
            out.push_str(")")
        }
    }
}

fn write_exprs(alloc: Global, out: &mut String, exprs: &[Expr]) -> Result<(), AllocError> {
    for expr in exprs {
        write_expr(alloc, out, expr)?;
    }
    Ok(())
}

fn write_roles(alloc: Global, out: &mut String, roles: &[u32]) -> Result<(), AllocError> {
    for role in roles {
        let role = format!(in alloc; " p{role}")?;
        out.push_str(role.as_str())?;
    }
    Ok(())
}

fn write_axiom(alloc: Global, out: &mut String, axiom: &Axiom) -> Result<(), AllocError> {
    match axiom {
        Axiom::SubClass(lower, upper) => {
            out.push_str("sub")?;
            write_expr(alloc, out, lower)?;
            write_expr(alloc, out, upper)?;
        }
        Axiom::Equivalent(classes) => {
            out.push_str("equal")?;
            write_exprs(alloc, out, classes.as_slice())?;
        }
        Axiom::Disjoint(classes) => {
            out.push_str("disjoint")?;
            write_exprs(alloc, out, classes.as_slice())?;
        }
        Axiom::SubRole(chain, role) => {
            out.push_str("chain")?;
            write_roles(alloc, out, chain.as_slice())?;
            out.push_str(" in")?;
            write_roles(alloc, out, &[*role])?;
        }
        Axiom::EquivalentRoles(roles) => {
            out.push_str("same")?;
            write_roles(alloc, out, roles.as_slice())?;
        }
        Axiom::Transitive(role) => {
            out.push_str("transitive")?;
            write_roles(alloc, out, &[*role])?;
        }
        Axiom::Reflexive(role) => {
            out.push_str("reflexive")?;
            write_roles(alloc, out, &[*role])?;
        }
        Axiom::Domain(role, class) => {
            out.push_str("domain")?;
            write_roles(alloc, out, &[*role])?;
            write_expr(alloc, out, class)?;
        }
    }
    out.push_str(";")
}

fn write_omitted(alloc: Global, out: &mut String, omitted: &[Omitted]) -> Result<(), Fail> {
    for Omitted { place, head } in omitted {
        let name = str::from_utf8(head.name())?;
        let entry = format!(in alloc; " omitted {}:{} {name}", place.line, place.column)?;
        out.push_str(entry.as_str())?;
    }
    Ok(())
}

// How many names are held, then what is said, then what is left out.
fn write_document(alloc: Global, names: &Names, document: &Document) -> Result<String, Fail> {
    let classes = names.classes.len();
    let roles = names.roles.len();
    let mut out = format!(in alloc; "{classes} {roles}:")?;
    for axiom in document.axioms.as_slice() {
        write_axiom(alloc, &mut out, axiom)?;
    }
    write_omitted(alloc, &mut out, document.omitted.as_slice())?;
    Ok(out)
}

fn write_fault(alloc: Global, fault: DocFault) -> Result<String, Fail> {
    match fault {
        DocFault::Syntax { place, kind } => {
            let Place { line, column } = place;
            Ok(format!(in alloc; "{line}:{column}: {kind}")?)
        }
        DocFault::Profile { place, head } => {
            let name = str::from_utf8(head.name())?;
            Ok(format!(in alloc; "{}:{}: profile {name}", place.line, place.column)?)
        }
        other => Ok(format!(in alloc; "{other}")?),
    }
}

fn read_within(
    alloc: Global,
    text: &[u8],
    mode: Mode,
    (depth, classes, properties): (u32, u32, u32),
) -> Result<String, Fail> {
    let limits = Limits {
        depth: depth.min(256),
        classes,
        properties,
        file_bytes: 0,
        rows: 0,
        nodes: 0,
        roles: 0,
    };
    let mut names = Names {
        classes: NameTable::new(alloc, classes),
        roles: NameTable::new(alloc, properties),
    };
    match read_document(alloc, text, mode, &limits, &mut names) {
        Ok(document) => write_document(alloc, &names, &document),
        Err(fault) => write_fault(alloc, fault),
    }
}

fn read(alloc: Global, text: &str, mode: Mode) -> Result<String, Fail> {
    read_within(alloc, text.as_bytes(), mode, (256, 100, 100))
}

#[test]
fn reads_each_axiom(rt: HostRuntime) -> Result<(), Fail> {
    let alloc = rt.alloc();
    let rows = [
        ("Ontology()", "0 0:"),
        ("Ontology(<o> <o/1> SubClassOf(<a> <b>))", "2 0:sub c0 c1;"),
        (
            "Ontology(SubClassOf(<b> ObjectSomeValuesFrom(<r> <a>)))",
            "2 1:sub c0 some(p0 c1);",
        ),
        (
            "Ontology(EquivalentClasses(<a> ObjectIntersectionOf(<b> <c> <a>)))",
            "3 0:equal c0 and( c1 c2 c0);",
        ),
        ("Ontology(EquivalentClasses(<a>))", "1 0:equal c0;"),
        (
            "Ontology(DisjointClasses(<a> <b> <a>))",
            "2 0:disjoint c0 c1 c0;",
        ),
        (
            "Ontology(SubObjectPropertyOf(<r> <s>))",
            "0 2:chain p0 in p1;",
        ),
        (
            "Ontology(SubObjectPropertyOf(ObjectPropertyChain(<r> <s> <r>) <t>))",
            "0 3:chain p0 p1 p0 in p2;",
        ),
        (
            "Ontology(EquivalentObjectProperties(<r> <s>))",
            "0 2:same p0 p1;",
        ),
        (
            "Ontology(TransitiveObjectProperty(<r>))",
            "0 1:transitive p0;",
        ),
        (
            "Ontology(ReflexiveObjectProperty(<r>))",
            "0 1:reflexive p0;",
        ),
        (
            "Ontology(ObjectPropertyDomain(<r> <c>))",
            "1 1:domain p0 c0;",
        ),
        (
            "Ontology(SubClassOf(owl:Nothing owl:Thing))",
            "0 0:sub Bottom Top;",
        ),
        (
            "Ontology(DisjointClasses(<http://www.w3.org/2002/07/owl#Thing> ObjectSomeValuesFrom(<r> owl:Nothing)))",
            "0 1:disjoint Top some(p0 Bottom);",
        ),
        (
            "Ontology(ReflexiveObjectProperty(owl:Thing) SubClassOf(<x> <x>))",
            "1 1:reflexive p0;sub c0 c0;",
        ),
        (
            "Ontology(SubClassOf(<x> ObjectSomeValuesFrom(<x> <x>)))",
            "1 1:sub c0 some(p0 c0);",
        ),
        (
            "Prefix(a:=<http://a/>)Prefix(:=<http://a/>)Ontology(SubClassOf(a:x :x)SubClassOf(:x <http://a/y>))",
            "2 0:sub c0 c0;sub c0 c1;",
        ),
        (
            "Ontology(SubClassOf(Annotation(<p> \"(\"@en)Annotation()<a> <b>))",
            "2 0:sub c0 c1;",
        ),
        (
            "Ontology # (\n ( SubClassOf # )\n (<> <>))",
            "1 0:sub c0 c0;",
        ),
    ];
    for (text, wanted) in rows {
        assert_eq!(rt; read(alloc, text, Mode::Strict)?.as_str(), wanted, "{text}");
    }
    Ok(())
}

#[test]
fn reads_declarations(rt: HostRuntime) -> Result<(), Fail> {
    let alloc = rt.alloc();
    let rows = [
        (
            "Ontology(Declaration(Class(<a>))Declaration(ObjectProperty(<a>)))",
            "1 1:",
        ),
        (
            "Ontology(Declaration(Annotation(<p> <q>)Class(<a>)))",
            "1 0:",
        ),
        ("Ontology(Declaration(DataProperty(<a>)))", "0 0:"),
        ("Ontology(Declaration(AnnotationProperty(<a>)))", "0 0:"),
        ("Ontology(Declaration(Datatype(xsd:string)))", "0 0:"),
        ("Ontology(Declaration(NamedIndividual(<a>)))", "0 0:"),
        (
            "Ontology(Declaration(Class(owl:Thing))Declaration(Class(owl:Nothing)))",
            "0 0:",
        ),
        (
            "Ontology(Declaration(ObjectProperty(owl:topObjectProperty)))",
            "0 0:",
        ),
        (
            "Ontology(Declaration(ObjectProperty(owl:bottomObjectProperty)))",
            "0 0:",
        ),
        ("Ontology(AnnotationAssertion(no:x (= <a>)))", "0 0:"),
        ("Ontology(Annotation(SubClassOf()))", "0 0:"),
        (
            "Ontology(SubAnnotationPropertyOf()AnnotationPropertyDomain()AnnotationPropertyRange())",
            "0 0:",
        ),
        ("Ontology(Declaration())", "1:10: wrong items for this head"),
        (
            "Ontology(Declaration(<a>))",
            "1:10: wrong items for this head",
        ),
        (
            "Ontology(Declaration((<a>)))",
            "1:10: wrong items for this head",
        ),
        (
            "Ontology(Declaration(Class(<a>) Class(<b>)))",
            "1:10: wrong items for this head",
        ),
        (
            "Ontology(Declaration(Class(<a> <b>)))",
            "1:22: wrong items for this head",
        ),
        (
            "Ontology(Declaration(Class(\"a\")))",
            "1:22: wrong items for this head",
        ),
        (
            "Ontology(Declaration(Class(ObjectOneOf(<a>))))",
            "1:22: wrong items for this head",
        ),
        (
            "Ontology(Declaration(Datatype(no:a)))",
            "1:31: unknown prefix",
        ),
        (
            "Ontology(Declaration(SubClassOf(<a> <b>)))",
            "1:22: unexpected item",
        ),
        ("Ontology(Declaration(Import(:x)))", "1:22: profile Import"),
        ("Ontology(Declaration(Word(<a>)))", "1:22: unexpected item"),
    ];
    for (text, wanted) in rows {
        assert_eq!(rt; read(alloc, text, Mode::Strict)?.as_str(), wanted, "{text}");
    }
    Ok(())
}

#[test]
fn refuses_in_order(rt: HostRuntime) -> Result<(), Fail> {
    let alloc = rt.alloc();
    let rows = [
        ("", "1:1: no Ontology term"),
        ("Prefix(a:=<x>)\n#", "2:2: no Ontology term"),
        ("Ontology(<a b>)", "1:10: no token begins here"),
        ("Ontology(\"#)", "1:10: no token begins here"),
        (
            "Ontology(SubClassOf(",
            "1:9: opening bracket without partner",
        ),
        ("Ontology())", "1:11: closing bracket without partner"),
        (
            "Ontology(SubClassOf(<a>))",
            "1:10: wrong items for this head",
        ),
        ("Ontology() Ontology()", "1:12: unexpected item"),
        (
            "Prefix(a:=<x>) Prefix(a:=<y>) Ontology()",
            "1:16: prefix declared with another IRI",
        ),
        (
            "Prefix(owl:=<http://www.w3.org/2002/07/owl#>)Ontology()",
            "0 0:",
        ),
        (
            "Prefix(a:b:=<x>)Ontology()",
            "1:1: wrong items for this head",
        ),
        ("Prefix(a=<x>)Ontology()", "1:1: wrong items for this head"),
        ("Prefix(a:=b:c)Ontology()", "1:1: wrong items for this head"),
        (
            "Prefix(a:= =<x>)Ontology()",
            "1:1: wrong items for this head",
        ),
        ("Import(<a>)Ontology()", "1:1: unexpected item"),
        ("<a> Ontology()", "1:1: unexpected item"),
        ("(Ontology())", "1:1: unexpected item"),
        ("Ontology(\n  SubClassOf(:A :B))", "2:14: unknown prefix"),
        ("Ontology(no:o)", "1:10: unknown prefix"),
        ("Ontology(<o> <v> <w>)", "1:18: unexpected item"),
        ("Ontology(SubClassOf(<a> <b>)<o>)", "1:29: unexpected item"),
        ("Ontology(word)", "1:10: unexpected item"),
        ("Ontology(())", "1:10: unexpected item"),
    ];
    for (text, wanted) in rows {
        assert_eq!(rt; read(alloc, text, Mode::Strict)?.as_str(), wanted, "{text}");
    }
    Ok(())
}

#[test]
fn refuses_terms(rt: HostRuntime) -> Result<(), Fail> {
    let alloc = rt.alloc();
    let rows = [
        ("SubClassOf(<a> \"b\")", "1:10: wrong items for this head"),
        ("SubClassOf(<a> (<b>))", "1:10: wrong items for this head"),
        ("SubClassOf(<a> Word(<b>))", "1:25: unexpected item"),
        (
            "SubClassOf(<a> ObjectUnionOf(<b>))",
            "1:25: profile ObjectUnionOf",
        ),
        (
            "SubClassOf(no:a ObjectUnionOf(<b>))",
            "1:21: unknown prefix",
        ),
        (
            "SubClassOf(ObjectSomeValuesFrom(<r>) <b>)",
            "1:21: wrong items for this head",
        ),
        (
            "SubClassOf(ObjectIntersectionOf() <b>)",
            "1:21: wrong items for this head",
        ),
        (
            "SubClassOf(ObjectPropertyChain(<r> <s>) <b>)",
            "1:21: unexpected item",
        ),
        ("EquivalentClasses()", "1:10: wrong items for this head"),
        (
            "EquivalentObjectProperties()",
            "1:10: wrong items for this head",
        ),
        (
            "TransitiveObjectProperty(<r> <s>)",
            "1:10: wrong items for this head",
        ),
        (
            "ReflexiveObjectProperty(ObjectInverseOf(<r>))",
            "1:34: profile ObjectInverseOf",
        ),
        (
            "ReflexiveObjectProperty(owl:topObjectProperty)",
            "1:34: profile owl:topObjectProperty",
        ),
        (
            "ObjectPropertyDomain(owl:bottomObjectProperty no:a)",
            "1:31: profile owl:bottomObjectProperty",
        ),
        (
            "SubObjectPropertyOf(ObjectPropertyChain(<r>) <s>)",
            "1:30: wrong items for this head",
        ),
        (
            "SubObjectPropertyOf(<r> ObjectPropertyChain(<r> <s>))",
            "1:34: unexpected item",
        ),
        (
            "SubObjectPropertyOf(ObjectIntersectionOf(<r>) <s>)",
            "1:30: unexpected item",
        ),
        ("SubObjectPropertyOf(<r> no:s)", "1:34: unknown prefix"),
        ("ObjectIntersectionOf(<a>)", "1:10: unexpected item"),
        ("Prefix(a:=<x>)", "1:10: unexpected item"),
        ("Class(<a>)", "1:10: unexpected item"),
        (
            "ObjectPropertyRange(<r> <c>)",
            "1:10: profile ObjectPropertyRange",
        ),
    ];
    for (term, wanted) in rows {
        let text = format!(in alloc; "Ontology({term})")?;
        assert_eq!(rt;
            read(alloc, text.as_str(), Mode::Strict)?.as_str(),
            wanted,
            "{term}"
        );
    }
    Ok(())
}

#[test]
fn leaves_out_what_is_outside(rt: HostRuntime) -> Result<(), Fail> {
    let alloc = rt.alloc();
    let rows = [
        (
            "ObjectPropertyRange(<r> <c>)",
            "0 0: omitted 1:10 ObjectPropertyRange",
        ),
        (
            "SubClassOf(<a> ObjectUnionOf(<b>))\nSubClassOf(<c> <d>) Import(<e>)",
            "2 0:sub c0 c1; omitted 1:25 ObjectUnionOf omitted 2:21 Import",
        ),
        (
            "HasKey(\"é€\") Import()\n\n  DLSafeRule()",
            "0 0: omitted 1:10 HasKey omitted 1:23 Import omitted 3:3 DLSafeRule",
        ),
        (
            "ReflexiveObjectProperty(owl:topObjectProperty)",
            "0 0: omitted 1:34 owl:topObjectProperty",
        ),
        ("Declaration(HasKey(<r>))", "0 0: omitted 1:22 HasKey"),
        (
            "Declaration(Class(HasKey(<r>)))",
            "1:22: wrong items for this head",
        ),
        ("ClassAssertion(no:c no:a) Word()", "1:36: unexpected item"),
        (
            "ClassAssertion() SubClassOf(<a>)",
            "1:27: wrong items for this head",
        ),
        (
            "ClassAssertion() SubClassOf(<a> no:b)",
            "1:42: unknown prefix",
        ),
        (
            "SubClassOf(no:a ObjectUnionOf(<b>))",
            "1:21: unknown prefix",
        ),
    ];
    for (terms, wanted) in rows {
        let text = format!(in alloc; "Ontology({terms})")?;
        assert_eq!(rt;
            read(alloc, text.as_str(), Mode::ElPart)?.as_str(),
            wanted,
            "{terms}"
        );
    }
    Ok(())
}

#[test]
fn keeps_to_limits(rt: HostRuntime) -> Result<(), Fail> {
    let alloc = rt.alloc();
    let deep = "Ontology(SubClassOf(<a> ObjectSomeValuesFrom(<r> ObjectSomeValuesFrom(<r> <b>))))";
    let three = "Ontology(SubClassOf(<a> <b>)Declaration(Class(<a>))Declaration(Class(<c>)))";
    let two_roles = "Ontology(SubObjectPropertyOf(<r> <s>))";
    let rows = [
        (
            deep,
            Mode::Strict,
            (4, 9, 9),
            "2 1:sub c0 some(p0 some(p0 c1));",
        ),
        (deep, Mode::Strict, (3, 9, 9), "too many open brackets"),
        (three, Mode::Strict, (9, 3, 0), "3 0:sub c0 c1;"),
        (three, Mode::Strict, (9, 2, 0), "too many class names"),
        (two_roles, Mode::Strict, (9, 0, 2), "0 2:chain p0 in p1;"),
        (
            two_roles,
            Mode::Strict,
            (9, 0, 1),
            "too many property names",
        ),
        (
            "Ontology(SubClassOf(<a> \"b\"))",
            Mode::Strict,
            (9, 0, 0),
            "1:10: wrong items for this head",
        ),
        (
            "Ontology(SubClassOf(<a> <b>)Word())",
            Mode::Strict,
            (9, 1, 0),
            "too many class names",
        ),
        (
            "Ontology(SubClassOf(<a> HasKey()))",
            Mode::ElPart,
            (9, 0, 0),
            "0 0: omitted 1:25 HasKey",
        ),
    ];
    for (text, mode, limits, wanted) in rows {
        let found = read_within(alloc, text.as_bytes(), mode, limits)?;
        assert_eq!(rt; found.as_str(), wanted, "{text}");
    }
    let brackets: [(&[u8], &str); 5] = [
        (b"\xff", "1:1: not UTF-8"),
        (b"\xef\xbb\xbfOntology(<a>\xff)", "1:13: not UTF-8"),
        (b"\xef\xbb\xbfOntology(:a)", "1:10: unknown prefix"),
        (
            b"\xef\xbb\xbf\xef\xbb\xbfOntology()",
            "1:1: unexpected item",
        ),
        (b"\xef\xbb\xbf", "1:1: no Ontology term"),
    ];
    for (text, wanted) in brackets {
        let found = read_within(alloc, text, Mode::Strict, (9, 9, 9))?;
        assert_eq!(rt; found.as_str(), wanted);
    }
    Ok(())
}

#[test]
fn reads_a_whole_document(rt: HostRuntime) -> Result<(), Fail> {
    let text = "Prefix(:=<http://l/>)
Prefix(owl:=<http://www.w3.org/2002/07/owl#>)
Prefix(xml:=<http://www.w3.org/XML/1998/namespace>)

Ontology(<http://l/onto>
<http://l/onto/1.0>
Annotation(rdfs:comment \"bones #1 (draft)\"@en)

Declaration(Class(:A))
Declaration(Class(:B))
Declaration(ObjectProperty(:partOf))

############################
#   Classes
############################

# Class: :A (first)

AnnotationAssertion(rdfs:label :A \"A \\\"one\\\"\")
SubClassOf(Annotation(rdfs:comment \"x\") :A ObjectSomeValuesFrom(:partOf :B))
DisjointClasses(:A :B)
)
";
    let found = read(rt.alloc(), text, Mode::Strict)?;
    assert_eq!(rt; found.as_str(), "2 1:sub c0 some(p0 c1);disjoint c0 c1;");
    Ok(())
}

#[test]
fn knows_heads_outside(rt: HostRuntime) -> Result<(), Fail> {
    let alloc = rt.alloc();
    let names =
        "DisjointUnion ObjectPropertyRange DisjointObjectProperties InverseObjectProperties FunctionalObjectProperty InverseFunctionalObjectProperty IrreflexiveObjectProperty SymmetricObjectProperty AsymmetricObjectProperty SubDataPropertyOf EquivalentDataProperties DisjointDataProperties DataPropertyDomain DataPropertyRange FunctionalDataProperty DatatypeDefinition HasKey SameIndividual DifferentIndividuals ClassAssertion ObjectPropertyAssertion NegativeObjectPropertyAssertion DataPropertyAssertion NegativeDataPropertyAssertion ObjectUnionOf ObjectComplementOf ObjectOneOf ObjectAllValuesFrom ObjectHasValue ObjectHasSelf ObjectMinCardinality ObjectMaxCardinality ObjectExactCardinality DataSomeValuesFrom DataAllValuesFrom DataHasValue DataMinCardinality DataMaxCardinality DataExactCardinality ObjectInverseOf DataIntersectionOf DataUnionOf DataComplementOf DataOneOf DatatypeRestriction Import DLSafeRule";
    let mut count = 0u32;
    for name in names.split(' ') {
        let inside = format!(in alloc; "Ontology({name}())")?;
        let wanted = format!(in alloc; "1:10: profile {name}")?;
        let found = read(alloc, inside.as_str(), Mode::Strict)?;
        assert_eq!(rt; found.as_str(), wanted.as_str());
        let before = format!(in alloc; "{name}() Ontology()")?;
        let found = read(alloc, before.as_str(), Mode::ElPart)?;
        assert_eq!(rt; found.as_str(), "1:1: unexpected item", "{name}");
        count = count.saturating_add(1);
    }
    assert_eq!(rt; count, 47);
    Ok(())
}
