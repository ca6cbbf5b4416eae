//! The greatest sizes of the input.

ghost use Rattle.std.specs.Prelude.{◌≡◌};

/// The greatest sizes of the input that are taken.
#[derive(Clone, Copy, Debug, PartialEq, Eq)]
pub struct Limits {
    /// Bytes of each ontology and of the table.
    pub file_bytes: u64,
    /// Brackets that are open at one place of an ontology. That of `Ontology` is the first.
    pub depth: u32,
    /// Class names of both ontologies, without `owl:Thing` and `owl:Nothing`.
    pub classes: u32,
    /// Property names of both ontologies.
    pub properties: u32,
    /// Rows of the table.
    pub rows: u32,
    /// Class expressions of both ontologies, each once, with `owl:Thing`, `owl:Nothing` and all
    /// names.
    pub nodes: u32,
    /// Property names, and the proper fronts of property chains with two or more properties.
    pub roles: u32,
}

impl Limits {
    /// The limits of the programs.
    pub fn standard() -> Limits
        ensures { result ≡ record {
          file_bytes = 67108864;
          depth = 256;
          classes = 500000;
          properties = 10000;
          rows = 50000;
          nodes = 1000000;
          roles = 20000;
        } }
    {
        Limits {
            file_bytes: 64 << 20,
            depth: 256,
            classes: 500_000,
            properties: 10_000,
            rows: 50_000,
            nodes: 1_000_000,
            roles: 20_000,
        }
    }
}
