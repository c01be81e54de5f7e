//! Laws of the reading of lines.
ghost use Rattle.gl_script.specs.Reading.{OneContent, OneRequest, SetReadsBack, ImportReadsBack};
ghost use Rattle.gl_script.specs.Laws.{OneHeader, HeaderAsksNothing};

/// A text is read as one content or refused by one word, and a line as one request or by one word.
pub fn one_reading()
    ensures content { OneContent }
    ensures line { OneRequest }
{}

/// A line is the header of one import at most, and such a line asks nothing else and is not refused.
pub fn one_header()
    ensures header { OneHeader }
    ensures apart { HeaderAsksNothing }
{}

/// The text of a content that was set or imported is read as this content again.
pub fn reads_back()
    ensures set { SetReadsBack }
    ensures imported { ImportReadsBack }
{}
