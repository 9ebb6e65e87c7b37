// The forms of words, for a reader.

/// What to tell a user whose words are of no form.
pub const USAGE: &str = "porcupine: the words have to be of one of these forms:
  porcupine serve FILE          serve the cluster of the plan file FILE, until standard input has the line `stop`
  porcupine check FILE          say whether FILE is a plan file
  porcupine drive               drive the tape of standard input
  porcupine storm NUMBER SIZE   write the tape of a storm, drawn from NUMBER, of SIZE rounds
";
