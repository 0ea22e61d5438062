// The trees of the original's base commands as images, with and without its feature fs; trees/*.tree hold the same bytes as house lines.
#![tactic(auto)]

ghost use Rattle.std.specs.Prelude.{◌≡◌};
ghost use Rattle.tree.specs.Images.{flat};
ghost use Rattle.trees.specs.Commands.{base_tree, fs_tree};

// The tree without the feature fs.
pub fn base_tree() -> [u8; 241]
    ensures { result ≡ flat base_tree }
{
    *b"\x01\x00\x00\x01\x04exit\x0eExit the shell\x10exit [EXIT_CODE]\x01\x00\x00\x02\x03log\x10Change log level\x0blog [LEVEL]\x01\x00\x00\x03\x05uname\x12System information\x0funame [OPTIONS]\x03a\x03all\x03all\x14Show all information\x03s\x0bkernel-name\x0bkernel-name\x10Show kernel name\x03m\x07machine\x07machine\x19Show machine architecture"
}

// The tree with the feature fs.
pub fn fs_tree() -> [u8; 1213]
    ensures { result ≡ flat fs_tree }
{
    *b"\x01\x00\x00\x01\x03cat\x15Display file contents\x16cat <FILE1> [FILE2...]\x01\x00\x00\x02\x02cd\x10Change directory\x0ecd [DIRECTORY]\x01\x00\x00\x03\x02cp\x0aCopy files\x1ccp [OPTIONS] <SOURCE> <DEST>\x03r\x09recursive\x09recursive\x1cCopy directories recursively\x01\x00\x00\x04\x04echo\x0cDisplay text\x18echo [OPTIONS] [TEXT...]\x03n\x0ano-newline\x0ano-newline\x1eDo not output trailing newline\x01\x00\x00\x05\x04exit\x0eExit the shell\x10exit [EXIT_CODE]\x01\x00\x00\x06\x03log\x10Change log level\x0blog [LEVEL]\x01\x00\x00\x07\x02ls\x17List directory contents\x1bls [OPTIONS] [DIRECTORY...]\x03l\x04long\x04long\x17Use long listing format\x03a\x03all\x03all\x11Show hidden files\x01\x00\x00\x08\x05mkdir\x12Create directories,mkdir [OPTIONS] <DIRECTORY1> [DIRECTORY2...]\x03p\x07parents\x07parents#Create parent directories as needed\x01\x00\x00\x09\x02mv\x11Move/rename files:mv <SOURCE> <DEST> | mv <SOURCE1> [SOURCE2...] <DIRECTORY>\x01\x00\x00\x0a\x03pwd\x17Print working directory\x0dpwd [OPTIONS]\x03L\x07logical\x07logical\x10Use logical path\x01\x00\x00\x0b\x02rm\x1cRemove files and directories\x1frm [OPTIONS] <FILE1> [FILE2...]\x03d\x03dir\x03dir\x18Remove empty directories\x03r\x09recursive\x09recursive\x1eRemove directories recursively\x03f\x05force\x05force'Force removal, ignore nonexistent files\x01\x00\x00\x0c\x05touch\x12Create empty files\x18touch <FILE1> [FILE2...]\x01\x00\x00\x0d\x05uname\x12System information\x0funame [OPTIONS]\x03a\x03all\x03all\x14Show all information\x03s\x0bkernel-name\x0bkernel-name\x10Show kernel name\x03m\x07machine\x07machine\x19Show machine architecture"
}
