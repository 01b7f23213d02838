//! What holds of all certificates.

ghost use Rattle.d_certline.specs.Laws.{CertificatesAreFaultless, FaultlessAreCertificates, FaultsStay, HasNoMore, HasOneCertificate, HasOneEvent, HasOneFault, HasOneLine, WholesArePrinted};

/// The numbers of a certificate are written as all others are.
pub fn wholes_are_printed()
    ensures { WholesArePrinted }
{}

/// A text is that of one line at most.
pub fn one_line()
    ensures { HasOneLine }
{}

/// Bytes have one fault at most, and keep it, other than that they end early, whatever comes behind them.
pub fn one_fault()
    ensures one { HasOneFault }
    ensures stays { FaultsStay }
{}

/// Behind so many events there is one at most, and none behind those of all whole lines.
pub fn one_event()
    ensures one { HasOneEvent }
    ensures last { HasNoMore }
{}

/// Bytes have no fault exactly where they are the text of a certificate in range.
pub fn faultless_are_certificates()
    ensures only { FaultlessAreCertificates }
    ensures made { CertificatesAreFaultless }
{}

/// Certificates in range that differ have different texts.
pub fn one_certificate()
    ensures { HasOneCertificate }
{}
