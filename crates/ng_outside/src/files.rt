ghost use Rattle.std.specs.Prelude.{◌≡◌, option_copied};
ghost use Rattle.ng_outside.specs.Files.{content_of};

// The content of the first file of this name.
pub(crate) fn content<'a>(files: &'a [(String, Vec<u8>)], name: &str) -> Option<&'a [u8]>
    ensures { option_copied result ≡ content_of files.now name.now }
{
    files
        .iter()
        .find(|file| file.0.as_str() == name)
        .map(|file| file.1.as_slice())
}
