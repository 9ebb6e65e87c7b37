// Files in memory.
ghost use Rattle.std.specs.Prelude.{◌≡◌, option_map};
ghost use Rattle.std.specs.Option.{option_copied};
ghost use Rattle.io_edge.specs.Files.{octets_in};

/// A file in memory.
#[derive(Drop)]
pub struct NamedFile {
    /// The name that it is asked for by.
    pub name: String,
    /// What it holds.
    pub octets: Vec<u8>,
}

/// The octets of the first file of this name.
#[tactic(auto, using(crate::proofs::NamedFiles::octets_next))]
pub(crate) fn octets_of<'a>(files: &'a [NamedFile], name: &str) -> Option<&'a Vec<u8>>
    ensures { option_map (λ octets. octets.items) (option_copied result) ≡ octets_in files.now name.now }
{
    for file in files {
        if file.name.as_str() == name {
            return Some(&file.octets);
        }
    }
    None
}
